ghost use Rattle.std.specs.Prelude.{◌≡◌};
ghost use Rattle.walk.specs.Trying.{outcome_by};

use register::Entered;

/// What a step meets. `Known` and `New` have the place of the row.
// (No Option of what the register answers: its None would not say that the longer path has no dating.)
#[derive(Clone, Copy, PartialEq, Eq, Debug)]
pub enum Outcome {
    /// The longer path has no dating.
    Barred,
    /// It is in a new class, and there is no room for it.
    Full,
    Known(u16),
    New(u16),
}

/// What a step meets if the register answers so.
impl From<Entered> for Outcome {
    ghost from_gives = { λ entered outcome. outcome ≡ outcome_by entered };

    fn from(entered: Entered) -> Outcome {
        match entered {
            Entered::Known(at) => Outcome::Known(at),
            Entered::New(at) => Outcome::New(at),
            Entered::Full => Outcome::Full,
        }
    }
}
