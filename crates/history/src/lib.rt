//! The calls on an examination, what each of them means, and what every list of them obeys.
//!
//! Nothing here computes but what a state is told as, by number and word: the calls themselves stand in the crate above, whose contracts
//! these definitions are.

#![tactic(auto)]

ghost use Rattle.history.specs.Laws.{HistoryLaw, OnlyLaw};

mod calls;
mod phase;

pub use calls::{Answer, Call, Leg, Verdict};
pub use phase::{Phase, State};

/// Whatever calls are made on a new examination, their answers tell the truth about the book last taken, and the same
/// calls could have had no other answers.
pub fn histories_are_lawful()
    ensures lawful { HistoryLaw }
    ensures only { OnlyLaw }
{}
