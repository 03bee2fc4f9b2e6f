//! The bytes of the books that several crates of tests share.
#![tactic(auto)]

/// Two stations, near and far 3. Chart 0 has a message of 3 ticks; charts 1 and 2 have a message, and chart 2 is final.
/// Links 0 -> 1 and 1 -> 1 take 2 and 1 ticks, link 1 -> 2 takes none.
pub const COUNTDOWN: &[u8; 148] = b"TCM\x00\x01\x02\x03\x00\x03\x00\x03\x00\x03\
    \x02\x01\x00\x00\x21\x01\x01\x3f\x00\x00\x01\x00\x03\x00\x03\
    \x02\x00\x00\x00\x21\x01\x01\x3f\x00\
    \x02\x00\x01\x01\x21\x01\x00\x3f\x00\
    \x00\x01\x00\x02\x00\x02\x00\x01\x00\x01\
    \x00\x00\xff\xff\x00\x00\xff\xff\x00\x00\xff\xff\x00\x00\xff\xff\x00\x00\xff\xff\x00\x00\xff\xff\
    \x01\x01\x00\x02\x00\x02\x00\x01\x00\x01\
    \x00\x00\xff\xff\x00\x00\xff\xff\x00\x00\xff\xff\x00\x00\xff\xff\x00\x00\xff\xff\x00\x00\xff\xff\
    \x01\x02\x00\x00\x00\x00\x00\x00\x00\x00\
    \x00\x00\xff\xff\x00\x00\xff\xff\x00\x00\xff\xff\x00\x00\xff\xff\x00\x00\xff\xff\x00\x00\xff\xff";

/// Three stations, near and far 3. Its one chart is final, and has a message of 1 to 3 ticks from station 0 to 1.
pub const ONE_MESSAGE: &[u8; 28] = b"TCM\x00\x01\x03\x01\x00\x00\x00\x03\x00\x03\
    \x02\x01\x01\x00\x21\x01\x01\x3f\x00\x00\x01\x00\x01\x00\x03";

/// The same with near 0: its chart cannot be dated.
pub const ONE_MESSAGE_NEAR_0: &[u8; 28] = b"TCM\x00\x01\x03\x01\x00\x00\x00\x00\x00\x03\
    \x02\x01\x01\x00\x21\x01\x01\x3f\x00\x00\x01\x00\x01\x00\x03";

/// A book that tests share, or a damaged one.
#[derive(Clone, Copy)]
pub enum Title {
    OneMessage,
    OneMessageNear0,
    Countdown,
    /// With near 2: its first chart cannot be dated.
    CountdownNear2,
    /// With 1..1 for station 1 on link 2: no path to chart 2 can be dated.
    CountdownLate,
    /// Without its last byte: link 2, at 114, is cut.
    CountdownCut,
    /// With a byte after its last link, at 148.
    CountdownLonger,
}

/// The books that are changed: a constant cannot be made of another.
#[derive(Drop)]
pub struct Shelf {
    countdown_near_2: [u8; 148],
    countdown_late: [u8; 148],
    countdown_longer: [u8; 149],
}

impl Shelf {
    pub fn new() -> Shelf {
        let mut countdown_near_2 = *COUNTDOWN;
        countdown_near_2[10] = 2;
        let mut countdown_late = *COUNTDOWN;
        countdown_late[121] = 1;
        countdown_late[123] = 1;
        let mut countdown_longer = [0; 149];
        countdown_longer[..148].copy_from_slice(COUNTDOWN);
        Shelf {
            countdown_near_2,
            countdown_late,
            countdown_longer,
        }
    }

    /// The bytes of a title.
    pub fn book(&self, title: Title) -> &[u8] {
        match title {
            Title::OneMessage => ONE_MESSAGE,
            Title::OneMessageNear0 => ONE_MESSAGE_NEAR_0,
            Title::Countdown => COUNTDOWN,
            Title::CountdownNear2 => &self.countdown_near_2,
            Title::CountdownLate => &self.countdown_late,
            Title::CountdownCut => &COUNTDOWN[..147],
            Title::CountdownLonger => &self.countdown_longer,
        }
    }
}
