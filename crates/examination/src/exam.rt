// The examination, and the five calls on it.
ghost use Rattle.std.specs.Prelude.{◌≡◌, ◌-◌, ◌<◌, ◌≤◌, length};
ghost use Rattle.bookformat.specs.Books.{book_value};
ghost use Rattle.history.specs.Views.{phase_of};
ghost use Rattle.walk.specs.Trying.{NextExists};
ghost use Rattle.history.specs.Meanings.{BeginMeans, AdvanceMeans, VerdictMeans, LegMeans, DatesMeans};
ghost use Rattle.examination.specs.Views.{view_of};
ghost use Rattle.examination.specs.Chains.{CountsIn, GoalIn, DatedLinks};
ghost use Rattle.examination.specs.Routes.{RouteIn};

use crate::chain::{charts_to, climb, leg_of, links_to};
use arrayvec::ArrayVec;
use bookformat::{Book, Fault};
use chartbook::read_book;
use earliest::earliest_dates_if_datable;
use history::{Leg, Phase, State, Verdict};
use register::Register;
use routes::{BookPath, MOST_LINKS};
use walk::{Unwatched, Watch, begin_walk, go_on};

/// Looks for a final path of a book that can be dated, step by step. Its rows stand in a register, which the caller holds.
#[derive(Drop)]
pub struct Examination {
    book: Book,
    phase: Phase,
    ghost sound: { ∥ NextExists (book_value book) (phase_of phase) ∥₁ },
}

/// How many charts the path found has, or 0.
fn charts_in<R: Register>(register: &R, phase: Phase) -> usize
    ensures { CountsIn (R.rows register.now) phase result }
{
    match phase {
        Phase::Runs(row) => charts_to(register, row),
        _ => 0,
    }
}

/// How many rows above the last one the row of a position is.
fn levels_above(charts: usize, position: usize) -> usize
    requires { position < charts }
    ensures { result ≡ charts - 1 - position }
{
    charts - (position + 1)
}

/// The row where the walk runs, or why there is none.
fn goal(phase: Phase) -> Result<u16, Fault>
    ensures { GoalIn phase result }
{
    match phase {
        Phase::Idle => Err(Fault::Idle),
        Phase::Runs(row) => Ok(row),
        Phase::Open(_, _) | Phase::Empty | Phase::Spent => Err(Fault::NotRunning),
    }
}

/// Writes the earliest dating of a list of links to the front of the space, if the list is a path.
pub fn date_links(book: &Book, links: &[u8], space: &mut [u32]) -> Result<usize, Fault>
    requires { length links.now ≤ 4095 }
    ensures { DatedLinks (book_value book.now) links.now space.old result space.new }
{
    // Only rows that something else wrote can tell of links that are no path.
    let path = BookPath::of(book, links).ok_or(Fault::NotRunning)?;
    let needed = path.event_count();
    if space.len() < needed {
        return Err(Fault::TooLittleSpace { needed });
    }
    Ok(earliest_dates_if_datable(&path, space))
}

impl Examination {
    /// An examination that has taken no book yet.
    pub fn new() -> Examination
        ensures { result.phase ≡ Phase.Idle }
    {
        Examination {
            book: Book::smallest(),
            phase: Phase::Idle,
        }
    }

    /// Takes the book that the bytes say, clears the register, and begins the walk with the first chart.
    pub fn begin<R: Register>(&mut self, register: &mut R, bytes: &[u8]) -> Result<State, Fault>
        ensures meaning { BeginMeans (R.capacity register.old) bytes.now (view_of self.old.book self.old.phase (R.rows register.old)) result (view_of self.new.book self.new.phase (R.rows register.new)) }
        ensures capacity { R.capacity register.new ≡ R.capacity register.old }
    {
        if register.capacity() == 0 {
            return Err(Fault::NoCapacity);
        }
        let book = read_book(bytes)?;
        let phase = begin_walk(&book, register);
        *self = Examination { book, phase };
        Ok(State::from(phase))
    }

    /// Makes steps while the state is open and within the budget. Answers how many, and the number of the state.
    // (Two plain numbers: the project fixes this form.)
    pub fn advance<R: Register>(
        &mut self,
        register: &mut R,
        budget: u16,
    ) -> Result<(u16, u8), Fault>
        ensures meaning { AdvanceMeans (R.capacity register.old) budget (view_of self.old.book self.old.phase (R.rows register.old)) result (view_of self.new.book self.new.phase (R.rows register.new)) }
        ensures capacity { R.capacity register.new ≡ R.capacity register.old }
    {
        self.advance_watched(register, budget, &mut Unwatched)
    }

    /// The same; the watcher is told of each step.
    pub fn advance_watched<R: Register, W: Watch>(
        &mut self,
        register: &mut R,
        budget: u16,
        watch: &mut W,
    ) -> Result<(u16, u8), Fault>
        ensures meaning { AdvanceMeans (R.capacity register.old) budget (view_of self.old.book self.old.phase (R.rows register.old)) result (view_of self.new.book self.new.phase (R.rows register.new)) }
        ensures capacity { R.capacity register.new ≡ R.capacity register.old }
    {
        if let Phase::Idle = self.phase {
            return Err(Fault::Idle);
        }
        let (steps, phase) = go_on(&self.book, register, self.phase, budget, watch);
        self.phase = phase;
        Ok((steps, u8::from(State::from(phase))))
    }

    /// The state, and for runs how many charts the path has.
    pub fn verdict<R: Register>(&self, register: &R) -> Verdict
        ensures { VerdictMeans (view_of self.now.book self.now.phase (R.rows register.now)) result }
    {
        Verdict {
            state: State::from(self.phase),
            charts: charts_in(register, self.phase),
        }
    }

    /// The chart at a position of the path, and the link that led to it.
    pub fn leg<R: Register>(&self, register: &R, position: usize) -> Result<Leg, Fault>
        ensures { LegMeans (view_of self.now.book self.now.phase (R.rows register.now)) position result }
    {
        let row = goal(self.phase)?;
        let charts = charts_to(register, row);
        if position >= charts {
            return Err(Fault::OffPath { charts });
        }
        let levels = levels_above(charts, position);
        Ok(leg_of(register, climb(register, row, levels)))
    }

    /// The book last taken; until then, the smallest there is.
    pub fn book(&self) -> &Book
        ensures { result.now ≡ self.now.book }
    {
        &self.book
    }

    /// The links of the path.
    pub fn route<R: Register>(&self, register: &R) -> Result<ArrayVec<u8, MOST_LINKS>, Fault>
        ensures { RouteIn (R.rows register.now) self.now.phase result }
    {
        let row = goal(self.phase)?;
        Ok(links_to(register, row))
    }

    /// Writes the earliest dating of the path to the front of the space, position after position and by event number;
    /// answers how many dates it has.
    pub fn dates<R: Register>(&self, register: &R, space: &mut [u32]) -> Result<usize, Fault>
        ensures { DatesMeans (view_of self.now.book self.now.phase (R.rows register.now)) space.old result space.new }
    {
        let row = goal(self.phase)?;
        date_links(&self.book, &links_to(register, row), space)
    }
}
