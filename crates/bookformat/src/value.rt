ghost use Rattle.std.specs.Prelude.{◌≡◌};

use crate::bounded::Bounded;
use std::alloc::AllocError;

/// What an event does on its station.
#[derive(Clone, Copy, Debug, Default, PartialEq, Eq)]
pub enum Kind {
    #[default]
    Send,
    Receive,
}

/// A working event of a chart; `pair` is the number of the other event of its message.
#[derive(Clone, Copy, Debug, Default)]
pub struct Event {
    pub station: u8,
    pub kind: Kind,
    pub pair: u8,
}

/// Ticks from `lower` to `upper`, both ends counted; `None` where there is no upper end.
#[derive(Clone, Copy, Debug, Default)]
pub struct Interval {
    pub lower: u16,
    pub upper: Option<u16>,
}

/// The date of event `second` minus that of event `first` lies in the interval.
#[derive(Clone, Copy, Debug, Default)]
pub struct Constraint {
    pub first: u8,
    pub second: u8,
    pub interval: Interval,
}

/// A message sequence chart with its times.
#[derive(Copy, Default)]
pub struct Chart {
    pub events: Bounded<Event, 40>,
    pub constraints: Bounded<Constraint, 64>,
    pub is_final: bool,
}

// (By hand, as a copy has to be seen to be the same chart.)
impl Clone for Chart {
    ghost is_clone = { λ old new. new ≡ old };

    ghost is_infallible = { λ _. Unit {0} };

    fn clone(&self) -> Result<Chart, AllocError> {
        Ok(*self)
    }
}

/// Chart `to` may follow chart `from`, with an interval for each station.
#[derive(Clone, Copy, Debug, Default)]
pub struct Link {
    pub from: u8,
    pub to: u8,
    pub intervals: [Interval; 8],
}
