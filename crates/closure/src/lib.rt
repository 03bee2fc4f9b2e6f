//! Closing a table of weights: one text for every kind of weight.
#![tactic(auto)]

mod kinds;
mod tables;
mod weights;

pub use kinds::{Before, Ticks, TooFar};
pub use tables::{Table, Unclosed, close};
pub use weights::Weight;

#[cfg(test)]
mod tests {
    use super::*;

    // Stands for no link.
    const NO: i32 = i32::MAX;

    // A table of ticks, its answer, and the numbers that it is closed to.
    #[derive(Drop)]
    struct Case {
        given: [i32; 4],
        answer: Result<(), Unclosed>,
        closed: [i32; 4],
    }

    fn ticks(count: i32) -> Ticks {
        Ticks::try_from(count).unwrap_or(Ticks::NONE)
    }

    fn count(ticks: Ticks) -> i32 {
        ticks.count().unwrap_or(NO)
    }

    #[test]
    fn two_places(rt: HostRuntime) {
        let cases = [
            Case {
                given: [NO, 7, NO, NO],
                answer: Ok(()),
                closed: [NO, 7, NO, NO],
            },
            // A cycle of exactly 0.
            Case {
                given: [NO, 3, -3, NO],
                answer: Ok(()),
                closed: [0, 3, -3, 0],
            },
            // Cycles of -1, the second by a link from a place to itself.
            Case {
                given: [0, 3, -4, 0],
                answer: Err(Unclosed::BadCycle(1)),
                closed: [0, 0, 0, 0],
            },
            Case {
                given: [0, NO, NO, -1],
                answer: Err(Unclosed::BadCycle(1)),
                closed: [0, 0, 0, 0],
            },
            // Both ends of the range.
            Case {
                given: [NO, 10_000, 10_000, NO],
                answer: Ok(()),
                closed: [20_000, 10_000, 10_000, 20_000],
            },
            Case {
                given: [NO, 10_000, -10_000, NO],
                answer: Ok(()),
                closed: [0, 10_000, -10_000, 0],
            },
        ];
        for case in cases.iter() {
            let [a, b, c, d] = case.given;
            let mut table = [ticks(a), ticks(b), ticks(c), ticks(d)];
            assert_eq!(rt; close(&mut table, 2), case.answer);
            if case.answer == Ok(()) {
                let [t, u, v, w] = table;
                assert_eq!(rt; [count(t), count(u), count(v), count(w)], case.closed);
            }
        }
    }

    // A way through all 54 places, as far as can be.
    fn lay_chain(table: &mut [Ticks]) {
        for (p, weight) in table.iter_mut().enumerate() {
            if p % 55 == 1 {
                *weight = ticks(10_000);
            }
        }
    }

    #[test]
    fn sizes(rt: HostRuntime) {
        let mut large = [Before::Linked; 3025];
        assert_eq!(rt; close(&mut large, 55), Err(Unclosed::WrongSize));
        let mut empty: [Before; 0] = [];
        assert_eq!(rt; close(&mut empty, 0), Ok(()));
        let mut table = [Ticks::NONE; 2916];
        lay_chain(&mut table);
        assert_eq!(rt; close(&mut table, 53), Err(Unclosed::WrongSize));
        assert_eq!(rt; close(&mut table, 55), Err(Unclosed::WrongSize));
        assert_eq!(rt; close(&mut table, 54), Ok(()));
        assert_eq!(rt; table[53].count(), Some(530_000));
        // What lies past the range of one link cannot be given.
        assert_eq!(rt; close(&mut table, 54), Err(Unclosed::OutOfRange(2)));
        assert_eq!(rt; table[53].count(), Some(530_000));
    }

    #[test]
    fn orders(rt: HostRuntime) {
        let yes = Before::Linked;
        let no = Before::Unlinked;
        let mut chain = [no, yes, no, no, no, yes, no, no, no];
        assert_eq!(rt; close(&mut chain, 3), Ok(()));
        assert!(rt; chain[2] == yes && chain[0] == no && chain[6] == no);
        // No order is better than linked, so a cycle shows on the diagonal alone.
        let mut cycle = [no, yes, yes, no];
        assert_eq!(rt; close(&mut cycle, 2), Ok(()));
        assert!(rt; cycle[0] == yes && cycle[3] == yes);
    }
}
