use crate::phase::State;
use bookformat::Fault;

/// The state of an examination and, if it runs, how many charts its path has, else 0.
// (A number that is 0 in the other states: the project fixes this answer.)
#[derive(Clone, Copy, PartialEq, Eq, Debug)]
pub struct Verdict {
    pub state: State,
    pub charts: usize,
}

/// One position of the path found: its chart, and the link that led to it; none leads to the first.
#[derive(Clone, Copy, PartialEq, Eq, Debug)]
pub struct Leg {
    pub chart: u8,
    pub link: Option<u8>,
}

/// A call on an examination.
#[derive(Clone, Copy)]
pub enum Call<'a> {
    Verdict,
    /// Begins with the bytes of a book.
    Begin(&'a [u8]),
    /// Advances by so many steps at most.
    Advance(u16),
    /// Asks for a position of the path.
    Leg(usize),
    /// Asks for the dates, with space for so many.
    Dates(usize),
}

/// What a call answered.
#[derive(Clone, Copy)]
pub enum Answer {
    Told(Verdict),
    Begun(Result<State, Fault>),
    /// The steps made, and the number of the state.
    // (Two plain numbers: the project fixes this form.)
    Advanced(Result<(u16, u8), Fault>),
    Shown(Result<Leg, Fault>),
    /// How many dates were written.
    Dated(Result<usize, Fault>),
}
