// Two kinds of weight: before, and ticks.
ghost use Rattle.std.specs.Prelude.{◌≡◌, None, Decides};
ghost use Rattle.closure.specs.Befores.{before_meaning};
ghost use Rattle.closure.specs.Tickings.{ticks_meaning, ticks_value, MakesTicks};
ghost use Rattle.std.proofs.Common.{rules};
ghost use Rattle.closure.specs.TicksLaws.{ticks_laws};

use crate::weights::Weight;

/// Whether one place comes before another.
#[derive(Clone, Copy, PartialEq, Eq, Debug)]
pub enum Before {
    Linked,
    Unlinked,
}

impl Weight for Before {
    ghost meaning = { before_meaning };

    ghost laws = { Prim.search rules };

    fn unit() -> Before {
        Self::Linked
    }

    fn none() -> Before {
        Self::Unlinked
    }

    fn is_given(self) -> bool {
        true
    }

    fn follow(self, next: Before) -> Before {
        match self {
            Before::Linked => next,
            Before::Unlinked => Before::Unlinked,
        }
    }

    fn is_better(self, other: Before) -> bool {
        match (self, other) {
            (Before::Linked, Before::Unlinked) => true,
            _ => false,
        }
    }
}

/// A whole number of ticks, or none.
#[repr(C)]
#[derive(Clone, Copy, PartialEq, Eq, Debug)]
pub struct Ticks {
    // The largest number stands for none, so that the order is the numbers' own.
    // (No enum of a number and none: tried, and closing a table took about four times as long.)
    count: i32,
}

/// A number of ticks that is farther than 10,000 from 0.
#[derive(Clone, Copy, PartialEq, Eq, Debug)]
pub struct TooFar;

// How far from 0 a number of ticks may be given.
const FARTHEST: i32 = 10_000;

impl TryFrom<i32> for Ticks {
    type Error = TooFar;

    ghost try_from_gives = { MakesTicks };

    /// So many ticks, if that is within 10,000 of 0.
    fn try_from(count: i32) -> Result<Ticks, TooFar> {
        if (-FARTHEST..=FARTHEST).contains(&count) {
            Ok(Ticks { count })
        } else {
            Err(TooFar)
        }
    }
}

impl Ticks {
    /// No number of ticks.
    pub const NONE: Ticks = Ticks { count: i32::MAX };

    /// The number of ticks, or none.
    pub fn count(self) -> Option<i32>
        ensures { result ≡ ticks_value self }
    {
        if self.is_none() {
            None
        } else {
            Some(self.count)
        }
    }

    fn is_none(self) -> bool
        ensures { Decides result (ticks_value self ≡ None) }
    {
        self.count == i32::MAX
    }
}

impl Weight for Ticks {
    ghost meaning = { ticks_meaning };

    ghost laws = { ticks_laws };

    fn unit() -> Ticks {
        Ticks { count: 0 }
    }

    fn none() -> Ticks {
        Ticks::NONE
    }

    fn is_given(self) -> bool {
        self.is_none() || (-FARTHEST..=FARTHEST).contains(&self.count)
    }

    fn follow(self, next: Ticks) -> Ticks {
        if self.is_none() || next.is_none() {
            Ticks::NONE
        } else {
            Ticks {
                count: self.count + next.count,
            }
        }
    }

    fn is_better(self, other: Ticks) -> bool {
        self.count < other.count
    }
}
