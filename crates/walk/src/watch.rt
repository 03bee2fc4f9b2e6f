use crate::outcome::Outcome;

/// Is told of each step of a walk.
// (A trait and no closure: whoever calls a closure must ask that it may be called, and no call of an examination asks for anything.)
pub trait Watch {
    /// The pair of a row and a link was tried, with this outcome.
    fn tried(&mut self, row: u16, link: u8, outcome: Outcome);
}

/// Nobody is told.
// (Not that of the reader of books: the two traits share no method, so one type for both would save a line.)
#[derive(Drop)]
pub struct Unwatched;

impl Watch for Unwatched {
    fn tried(&mut self, _row: u16, _link: u8, _outcome: Outcome) {}
}
