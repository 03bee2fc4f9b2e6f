//! The chart book as a value, its bytes, its rules and the tests of its reader.
#![tactic(auto)]

ghost use Rattle.bookformat.specs.Laws.{TakenGood, GoodTaken, GoodRead};

mod book;
mod bounded;
mod bytes;
mod fault;
mod value;

pub use arrayvec::ArrayVec;
pub use book::Book;
pub use bounded::Bounded;
pub use bytes::{LONGEST, UnknownKind};
pub use fault::{Fault, Refusal};
pub use value::{Chart, Constraint, Event, Interval, Kind, Link};

/// The bytes of a good book, and no others, pass every test, and they say that book.
pub fn tests_match_rules()
    ensures taken { TakenGood }
    ensures good { GoodTaken }
    ensures read { GoodRead }
{}
