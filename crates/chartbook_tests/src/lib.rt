//! Tests of the reader of books, and of lists of their records. They stand in a crate of their own, since a crate with tests is proved twice.
#![tactic(auto)]

ghost use Rattle.std.specs.Prelude.{◌≤◌};
ghost use Rattle.bookformat.specs.Bounded.{bounded_len};
ghost use Rattle.bookformat.specs.Layout.{event_at};
ghost use Rattle.bookformat.specs.Reading.{event_tests};
ghost use Rattle.std.proofs.Common.{rules};

#[cfg(test)]
mod tests {
    use bookformat::{ArrayVec, Bounded, Constraint, Event, Fault};
    use bookrecords::{EVENT_SIZE, EventSetting, Listed, Unwatched, Watch, read_list};
    use chartbook::{Refusal, read_book};
    use std::test::Fail;
    use worked_books::COUNTDOWN;

    fn refused(bytes: &[u8]) -> Option<Refusal> {
        read_book(bytes).err().map(Refusal::from)
    }

    // One byte changed, and the number, the layer and the place of the refusal.
    const CHANGES: [(usize, u8, u8, u8, usize); 34] = [
        (0, 0x58, 2, 1, 0),
        (4, 2, 2, 1, 3),
        (5, 1, 3, 1, 5),
        (5, 9, 3, 1, 5),
        (6, 0, 3, 1, 6),
        (6, 33, 3, 1, 6),
        (7, 3, 3, 1, 7),
        (8, 129, 3, 1, 8),
        (9, 0x40, 3, 1, 9),
        (11, 0x40, 3, 1, 11),
        (12, 2, 3, 1, 11),
        (13, 0, 3, 1, 13),
        (13, 3, 3, 1, 13),
        (13, 42, 3, 1, 13),
        (14, 65, 3, 1, 14),
        (15, 2, 3, 1, 15),
        (16, 2, 5, 2, 16),
        (17, 0x22, 5, 2, 16),
        (18, 2, 5, 2, 16),
        (18, 0, 5, 2, 16),
        (19, 0, 5, 2, 16),
        (20, 0x21, 5, 2, 16),
        (36, 1, 5, 2, 31),
        (22, 1, 6, 2, 22),
        (23, 2, 6, 2, 22),
        (24, 0x40, 7, 2, 22),
        (26, 0x40, 7, 2, 22),
        (27, 2, 7, 2, 22),
        (46, 3, 9, 3, 46),
        (81, 3, 9, 3, 80),
        (48, 0xff, 7, 3, 46),
        (51, 1, 7, 3, 46),
        (57, 1, 10, 3, 46),
        (121, 1, 7, 3, 114),
    ];

    #[test]
    fn first_fault_of_a_changed_byte(rt: HostRuntime) {
        for (at, byte, number, layer, place) in CHANGES {
            assert!(rt; at < 148);
            let mut bytes = *COUNTDOWN;
            bytes[at] = byte;
            assert_eq!(rt;
                refused(&bytes),
                Some(Refusal {
                    number,
                    layer,
                    place,
                })
            );
        }
    }

    // How many bytes are left of the book, and the place of the record that is cut.
    const CUTS: [(usize, usize); 12] = [
        (0, 0),
        (4, 0),
        (5, 5),
        (12, 5),
        (13, 13),
        (15, 13),
        (16, 16),
        (21, 19),
        (27, 22),
        (46, 46),
        (79, 46),
        (147, 114),
    ];

    #[test]
    fn a_cut_book(rt: HostRuntime) {
        let book = *COUNTDOWN;
        for (len, place) in CUTS {
            assert!(rt; len < 148);
            assert_eq!(rt;
                refused(&book[0..len]),
                Some(Refusal {
                    number: 1,
                    layer: 1,
                    place,
                })
            );
        }
    }

    #[test]
    fn the_whole_book_and_one_byte_more(rt: HostRuntime) {
        assert_eq!(rt; refused(COUNTDOWN), None);
        let mut longer = [0u8; 149];
        longer[0..148].copy_from_slice(COUNTDOWN);
        assert_eq!(rt;
            refused(&longer),
            Some(Refusal {
                number: 4,
                layer: 1,
                place: 148,
            })
        );
    }

    // Two messages that cross, where each station receives before it sends.
    const CROSSED: [u8; 28] = [
        0x54, 0x43, 0x4d, 0, 1, 2, 1, 0, 0, 0, 3, 0, 3, // mark and header
        4, 0, 1, 0, 0x3f, 3, 0, 0x21, 2, 1, 0x3f, 1, 1, 0x21, 0, // chart 0 at 13
    ];

    #[test]
    fn an_event_before_itself(rt: HostRuntime) {
        assert_eq!(rt;
            refused(&CROSSED),
            Some(Refusal {
                number: 8,
                layer: 2,
                place: 13,
            })
        );
    }

    #[test]
    fn what_is_read(rt: HostRuntime) -> Result<(), Fail> {
        let book = read_book(COUNTDOWN)?;
        assert_eq!(rt;
            (book.stations, book.first, book.near, book.far),
            (2, 0, 3, 3)
        );
        assert_eq!(rt;
            (book.charts.as_slice().len(), book.links.as_slice().len()),
            (3, 3)
        );
        for (chart, is_final) in book
            .charts
            .as_slice()
            .iter()
            .zip([false, false, true].iter())
        {
            assert_eq!(rt; chart.is_final, *is_final);
            assert_eq!(rt; chart.events.as_slice().len(), 2);
        }
        for (link, to) in book.links.as_slice().iter().zip([1, 1, 2].iter()) {
            assert_eq!(rt; link.to, *to);
        }
        Ok(())
    }

    /// Items that are copied by `=` and have no default.
    #[derive(Clone, Copy, Debug, PartialEq, Eq)]
    enum Mark {
        Thin,
        Thick,
    }

    // Whoever holds a list knows that it fits its room, and asks nothing of it.
    fn fits(list: &Bounded<Mark, 2>)
        ensures { bounded_len list.now ≤ 2 }
    {}

    #[test]
    fn a_list_asks_for_no_default(rt: HostRuntime) {
        let mut marks: Bounded<Mark, 2> = Bounded::new(Mark::Thin);
        assert_eq!(rt; marks.len(), 0);
        marks.push(Mark::Thick);
        assert_eq!(rt; marks.as_slice().len(), 1);
        assert_eq!(rt; marks.first().copied(), Some(Mark::Thick));
        fits(&marks);
    }

    /// An event that `=` does not copy.
    #[derive(Default, Drop)]
    struct Noted {
        event: Event,
    }

    impl Listed<EventSetting> for Noted {
        const SIZE: usize = EVENT_SIZE;

        ghost SIZE = { 3 };

        ghost tests = { λ book setting place. event_tests book setting.stations setting.events place };

        ghost at = { λ book place. record { event = event_at book place } };

        ghost short = { Prim.search rules };

        fn read<W: Watch>(
            book: &[u8],
            place: usize,
            number: usize,
            setting: &EventSetting,
            watch: &mut W,
        ) -> Result<Noted, Fault> {
            let event = Event::read(book, place, number, setting, watch)?;
            Ok(Noted { event })
        }
    }

    #[test]
    fn a_list_of_records_asks_for_no_copy(rt: HostRuntime) -> Result<(), Fail> {
        let setting = EventSetting {
            stations: 2,
            events: 2,
        };
        let noted: ArrayVec<Noted, 2> = read_list(COUNTDOWN, 16, 2, &setting, &mut Unwatched)?;
        assert_eq!(rt; noted.len(), 2);
        for (note, station) in noted.iter().zip([0, 1].iter()) {
            assert_eq!(rt; note.event.station, *station);
        }
        let narrow = EventSetting {
            stations: 1,
            events: 2,
        };
        let beyond: Result<ArrayVec<Noted, 2>, Fault> = read_list(
            COUNTDOWN,
            16,
            2,
            &narrow,
            &mut Unwatched,
        );
        assert_eq!(rt;
            beyond.err().map(Refusal::from),
            Some(Refusal {
                number: 5,
                layer: 2,
                place: 19,
            })
        );
        Ok(())
    }

    #[test]
    fn constraints_by_events_in_the_kits_list(rt: HostRuntime) -> Result<(), Fail> {
        let setting = EventSetting {
            stations: 2,
            events: 2,
        };
        let events: ArrayVec<Event, 40> = read_list(COUNTDOWN, 16, 2, &setting, &mut Unwatched)?;
        let constraints: ArrayVec<Constraint, 64> = read_list(
            COUNTDOWN,
            22,
            1,
            &events,
            &mut Unwatched,
        )?;
        assert_eq!(rt; constraints.len(), 1);
        for c in constraints.iter() {
            assert_eq!(rt; (c.first, c.second), (0, 1));
            assert_eq!(rt; (c.interval.lower, c.interval.upper), (3, Some(3)));
        }
        Ok(())
    }
}
