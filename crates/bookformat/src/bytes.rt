// What single bytes of a book say.
ghost use Rattle.std.specs.Prelude.{◌≡◌};
ghost use Rattle.bookformat.specs.Layout.{interval_at};
ghost use Rattle.bookformat.specs.Bytes.{SaysKind};

use crate::value::{Interval, Kind};

/// How many bytes the longest book has.
pub const LONGEST: usize = 20_589;

/// All bits set: no upper end.
const NONE: u16 = 0xffff;

/// A byte that stands for no kind of event.
#[derive(Clone, Copy, Debug, PartialEq, Eq)]
pub struct UnknownKind;

impl TryFrom<u8> for Kind {
    type Error = UnknownKind;

    ghost try_from_gives = { SaysKind };

    fn try_from(byte: u8) -> Result<Kind, UnknownKind> {
        match byte {
            0x21 => Ok(Kind::Send),
            0x3f => Ok(Kind::Receive),
            _ => Err(UnknownKind),
        }
    }
}

impl From<[u8; 4]> for Interval {
    ghost from_gives = { λ bytes interval. interval ≡ interval_at bytes 0 };

    /// The lower end, then the upper.
    fn from(bytes: [u8; 4]) -> Interval {
        let [lower_high, lower_low, upper_high, upper_low] = bytes;
        let upper = u16::from_be_bytes([upper_high, upper_low]);
        Interval {
            lower: u16::from_be_bytes([lower_high, lower_low]),
            upper: if upper == NONE { None } else { Some(upper) },
        }
    }
}
