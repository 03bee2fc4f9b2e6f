//! Tests of steps. They stand in a crate of their own, since a crate with tests is proved twice.
#![tactic(auto)]

#[cfg(test)]
mod tests {
    use chartbook::read_book;
    use std::test::Fail;
    use steps::{first_profile, step_profile};
    use worked_books::COUNTDOWN;

    // The entries of stations 0 and 1: 0 minus 1, and 1 minus 0.
    fn between(profile: Option<[i16; 64]>) -> Option<(i16, i16)> {
        let a = profile?;
        Some((a[1], a[8]))
    }

    #[test]
    fn first_chart_alone(rt: HostRuntime) -> Result<(), Fail> {
        let book = read_book(COUNTDOWN)?;
        assert_eq!(rt; between(first_profile(&book)), Some((-3, 3)));
        Ok(())
    }

    #[test]
    fn steps_of_countdown(rt: HostRuntime) -> Result<(), Fail> {
        let book = read_book(COUNTDOWN)?;
        assert!(rt; book.links.as_slice().len() == 3);
        let Some(three) = first_profile(&book) else {
            return Err(Fail::new("the first chart"));
        };
        let Some(two) = step_profile(&book, &three, 0) else {
            return Err(Fail::new("link 0"));
        };
        assert_eq!(rt; between(Some(two)), Some((-2, 2)));
        let Some(one) = step_profile(&book, &two, 1) else {
            return Err(Fail::new("link 1"));
        };
        assert_eq!(rt; between(Some(one)), Some((-1, 1)));
        // Station 1 would send one tick after station 0 receives.
        assert_eq!(rt; between(step_profile(&book, &one, 2)), None);
        Ok(())
    }
}
