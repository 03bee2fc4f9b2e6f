// What every register means: a list of rows and a fixed capacity.
ghost use Rattle.std.specs.Prelude.{◌≡◌, ℕ, ◌≤◌, List, [], length};
ghost use Rattle.register.specs.declared.interface.Unmade.TheVariants.{NoMemory};
ghost use Rattle.register.specs.declared.row.Row.{Row};
ghost use Rattle.register.specs.Meaning.{most_rows, Enters, Reads};

use crate::row::Row;
use std::alloc::AllocError;

/// The largest capacity of a register.
pub const MOST_ROWS: u16 = 4096;

/// What a register answers to a row that is entered, with the row's place.
#[derive(Clone, Copy, PartialEq, Eq, Debug)]
pub enum Entered {
    Known(u16),
    New(u16),
    Full,
}

/// Why a register could not be made.
#[derive(Clone, Copy, PartialEq, Eq, Debug)]
pub enum Unmade {
    TooManyRows,
    NoMemory,
}

impl From<AllocError> for Unmade {
    ghost from_gives = { λ _ r. r ≡ NoMemory };

    fn from(_error: AllocError) -> Unmade {
        Unmade::NoMemory
    }
}

/// Holds rows in the order in which they were entered, each at its place from 0 on.
pub trait Register {
    ghost rows: { Self → List Row };

    ghost capacity: { Self → ℕ };

    /// Looks for the row's class, and appends the row if no row has it and there is room.
    fn enter(&mut self, row: &Row) -> Entered
        ensures rows { Enters (capacity self.old) (rows self.old) row.now result (rows self.new) }
        ensures capacity { capacity self.new ≡ capacity self.old };

    /// Copies the row at a place to `out`; false, and `out` as it was, if there is none.
    // (A flag beside a lent row: the form that the project fixes for a register's `read`.)
    fn read(&self, place: u16, out: &mut Row) -> bool
        ensures { Reads (rows self.now) place out.old result out.new };

    /// How many rows are held.
    fn count(&self) -> u16
        ensures { result ≡ length (rows self.now) };

    /// How many rows can be held.
    fn capacity(&self) -> u16
        ensures { result ≡ capacity self.now };

    /// Forgets every row.
    fn clear(&mut self)
        ensures rows { rows self.new ≡ [] }
        ensures capacity { capacity self.new ≡ capacity self.old };

    ghost within: { (register : Self) → length (rows register) ≤ capacity register };

    ghost limited: { (register : Self) → capacity register ≤ most_rows };
}
