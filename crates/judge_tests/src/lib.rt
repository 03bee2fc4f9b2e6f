//! Tests of the judge. They stand in a crate of their own, since a crate with tests is proved twice.
#![tactic(auto)]

#[cfg(test)]
mod tests {
    use bookformat::Refusal;
    use judge::{Judgement, judge};
    use worked_books::COUNTDOWN;

    // Three stations, near 1, far 2. Chart 0 has a message from station 0 to 1, and a link to itself
    // without bounds; station 2 is silent.
    const SILENT: &[u8; 56] = b"TCM\x00\x01\x03\x01\x00\x01\x00\x01\x00\x02\
        \x02\x00\x01\x00\x21\x01\x01\x3f\x00\
        \x00\x00\x00\x00\xff\xff\x00\x00\xff\xff\
        \x00\x00\xff\xff\x00\x00\xff\xff\x00\x00\xff\xff\x00\x00\xff\xff\x00\x00\xff\xff\x00\x00\xff\xff";

    // Two stations, near and far 9. Chart 0 has a message, and a link to itself that takes station 0
    // 2 to 5 ticks and station 1 3 to 6.
    const SPACED: &[u8; 56] = b"TCM\x00\x01\x02\x01\x00\x01\x00\x09\x00\x09\
        \x02\x00\x01\x00\x21\x01\x01\x3f\x00\
        \x00\x00\x00\x02\x00\x05\x00\x03\x00\x06\
        \x00\x00\xff\xff\x00\x00\xff\xff\x00\x00\xff\xff\x00\x00\xff\xff\x00\x00\xff\xff\x00\x00\xff\xff";

    fn judged(book: &[u8], links: &[u16], dates: &[u32]) -> Option<Judgement> {
        judge(book, links, dates).ok()
    }

    fn refused(book: &[u8], links: &[u16], dates: &[u32]) -> Option<Refusal> {
        judge(book, links, dates).err().map(Refusal::from)
    }

    fn refusal(number: u8, layer: u8, place: usize) -> Option<Refusal> {
        Some(Refusal {
            number,
            layer,
            place,
        })
    }

    #[test]
    fn countdown(rt: HostRuntime) {
        let links = [0, 1, 1, 2];
        assert_eq!(rt;
            judged(COUNTDOWN, &links, &[0, 3, 2, 4, 4, 5, 6, 6, 6, 6]),
            Some(Judgement::Kept)
        );
        assert_eq!(rt;
            judged(COUNTDOWN, &links, &[0, 3, 2, 4, 4, 5, 6, 6, 6, 5]),
            Some(Judgement::Broken { position: 4 })
        );
        // a constraint, broken by one at either end
        assert_eq!(rt;
            judged(COUNTDOWN, &[], &[0, 2]),
            Some(Judgement::Broken { position: 0 })
        );
        assert_eq!(rt;
            judged(COUNTDOWN, &[], &[0, 4]),
            Some(Judgement::Broken { position: 0 })
        );
    }

    #[test]
    fn refusals(rt: HostRuntime) {
        let dates = [0, 3, 2, 4, 4, 5, 6, 6, 6, 6];
        assert_eq!(rt;
            refused(COUNTDOWN, &[0, 1, 1, 2], &dates[0..9]),
            refusal(17, 4, 10)
        );
        assert_eq!(rt; refused(COUNTDOWN, &[0, 2, 2], &[]), refusal(16, 4, 2));
        assert_eq!(rt; refused(COUNTDOWN, &[0, 3], &dates), refusal(16, 4, 1));
        let book = *COUNTDOWN;
        assert_eq!(rt; refused(&book[0..147], &[9], &[]), refusal(1, 1, 114));
    }

    #[test]
    fn one_chart(rt: HostRuntime) {
        // the silent event is held to the far bound alone
        assert_eq!(rt; judged(SILENT, &[], &[0, 0, 2]), Some(Judgement::Kept));
        // order, near and far broken by one
        for dates in [[1, 0, 1], [0, 2, 1], [0, 1, 3]] {
            assert_eq!(rt;
                judged(SILENT, &[], &dates),
                Some(Judgement::Broken { position: 0 })
            );
        }
    }

    #[test]
    fn link_intervals(rt: HostRuntime) {
        // the first link at its lower ends, the second at its upper ends
        assert_eq!(rt;
            judged(SPACED, &[0, 0], &[0, 0, 2, 3, 7, 9]),
            Some(Judgement::Kept)
        );
        // the first link taken one tick too early, by either station
        for dates in [[0, 0, 1, 3, 6, 9], [0, 0, 2, 2, 7, 8]] {
            assert_eq!(rt;
                judged(SPACED, &[0, 0], &dates),
                Some(Judgement::Broken { position: 1 })
            );
        }
        // the second link taken one tick too late, by either station
        for dates in [[0, 0, 2, 3, 8, 9], [0, 0, 2, 3, 7, 10]] {
            assert_eq!(rt;
                judged(SPACED, &[0, 0], &dates),
                Some(Judgement::Broken { position: 2 })
            );
        }
    }

    #[test]
    fn longest_path(rt: HostRuntime) {
        let links = [0; 4096];
        let mut dates = [0; 12288];
        assert_eq!(rt;
            judged(SILENT, &links[0..4095], &dates),
            Some(Judgement::Kept)
        );
        assert_eq!(rt; refused(SILENT, &links, &dates), refusal(16, 4, 4095));
        dates[12287] = 3;
        assert_eq!(rt;
            judged(SILENT, &links[0..4095], &dates),
            Some(Judgement::Broken { position: 4095 })
        );
    }
}
