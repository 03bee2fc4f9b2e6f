//! Tests of the earliest dating. They stand in a crate of their own, since a crate with tests is proved twice.
#![tactic(auto)]

#[cfg(test)]
mod tests {
    use bookformat::Fault;
    use chartbook::read_book;
    use earliest::earliest_dates_if_datable;
    use routes::BookPath;
    use std::test::Fail;
    use worked_books::{COUNTDOWN, ONE_MESSAGE, ONE_MESSAGE_NEAR_0};

    fn leads(bytes: &[u8], links: &[u8]) -> Result<bool, Fault> {
        let book = read_book(bytes)?;
        Ok(BookPath::of(&book, links).is_some())
    }

    // Writes dates to the front of the space, and says how many; none where the links are no path.
    fn dated(bytes: &[u8], links: &[u8], space: &mut [u32]) -> Result<Option<usize>, Fault> {
        let book = read_book(bytes)?;
        let Some(path) = BookPath::of(&book, links) else {
            return Ok(None);
        };
        if path.event_count() > space.len() {
            return Ok(None);
        }
        Ok(Some(earliest_dates_if_datable(&path, space)))
    }

    #[test]
    fn countdown(rt: HostRuntime) -> Result<(), Fail> {
        let mut space = [9; 12];
        assert_eq!(rt; dated(COUNTDOWN, &[0, 1, 1, 2], &mut space)?, Some(10));
        assert_eq!(rt; space, [0, 3, 2, 4, 4, 5, 6, 6, 6, 6, 9, 9]);
        Ok(())
    }

    #[test]
    fn one_message(rt: HostRuntime) -> Result<(), Fail> {
        let mut space = [9; 5];
        assert_eq!(rt; dated(ONE_MESSAGE, &[], &mut space)?, Some(3));
        assert_eq!(rt; space, [0, 1, 0, 9, 9]);
        Ok(())
    }

    #[test]
    fn without_dating(rt: HostRuntime) -> Result<(), Fail> {
        let mut space = [9; 8];
        assert_eq!(rt; dated(COUNTDOWN, &[0, 2], &mut space)?, Some(6));
        assert!(rt; space[6] == 9 && space[7] == 9);
        let mut space = [9; 5];
        assert_eq!(rt; dated(ONE_MESSAGE_NEAR_0, &[], &mut space)?, Some(3));
        assert!(rt; space[3] == 9 && space[4] == 9);
        Ok(())
    }

    #[test]
    fn paths(rt: HostRuntime) -> Result<(), Fail> {
        assert!(rt; leads(COUNTDOWN, &[])?);
        assert!(rt; leads(COUNTDOWN, &[0])?);
        assert!(rt; leads(COUNTDOWN, &[0, 1, 1, 2])?);
        // Link 1 does not begin at the first chart.
        assert!(rt; !leads(COUNTDOWN, &[1])?);
        // Link 0 does not begin where link 0 leads.
        assert!(rt; !leads(COUNTDOWN, &[0, 0])?);
        // There is no link 3.
        assert!(rt; !leads(COUNTDOWN, &[0, 3])?);
        Ok(())
    }
}
