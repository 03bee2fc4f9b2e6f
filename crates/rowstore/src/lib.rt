//! Rows in memory that is set aside once, so that no later call has to ask for any.
#![tactic(auto)]

ghost use Rattle.std.specs.Prelude.{◌≡◌, ◌<◌, ◌≤◌, [], ◌∷◌, ◌++◌, length, vec_capacity, Decides, option_copied, slice_get};
ghost use Rattle.register.specs.Making.{Makes};
ghost use Rattle.register.specs.Meaning.{most_rows};

use register::{MOST_ROWS, Row, Unmade};
use std::alloc::Global;

/// Rows, with as much memory as was asked for and no more, so that its capacity is that of the register.
#[derive(Drop)]
pub struct Store {
    rows: Vec<Row>,
    ghost limited: { vec_capacity rows ≤ most_rows },
}

impl Store {
    pub fn new(heap: Global, capacity: u16) -> Result<Store, Unmade>
        ensures { Makes (λ s. s.rows.items) (λ s. vec_capacity s.rows) capacity result }
    {
        if capacity > MOST_ROWS {
            return Err(Unmade::TooManyRows);
        }
        let rows = Vec::with_capacity(heap, usize::from(capacity))?;
        Ok(Store { rows })
    }

    pub fn rows(&self) -> &[Row]
        ensures { result.now ≡ self.now.rows.items }
    {
        &self.rows
    }

    pub fn count(&self) -> u16
        ensures { result ≡ length self.now.rows.items }
    {
        self.rows.len() as u16
    }

    pub fn capacity(&self) -> u16
        ensures { result ≡ vec_capacity self.now.rows }
    {
        self.rows.capacity() as u16
    }

    pub fn is_full(&self) -> bool
        ensures { Decides result (vec_capacity self.now.rows ≤ length self.now.rows.items) }
    {
        self.count() >= self.capacity()
    }

    /// The row at a place, if one is held there.
    pub fn get(&self, place: u16) -> Option<&Row>
        ensures { option_copied result ≡ slice_get self.now.rows.items place }
    {
        self.rows.get(usize::from(place))
    }

    /// Appends a row, where there is room, and answers its place.
    pub fn append(&mut self, row: &Row) -> u16
        requires { length self.old.rows.items < vec_capacity self.old.rows }
        ensures place { result ≡ length self.old.rows.items }
        ensures rows { self.new.rows.items ≡ self.old.rows.items ++ (row.now ∷ []) }
        ensures capacity { vec_capacity self.new.rows ≡ vec_capacity self.old.rows }
    {
        let place = self.count();
        self.rows.push_reserved(*row);
        place
    }

    pub fn clear(&mut self)
        ensures rows { self.new.rows.items ≡ [] }
        ensures capacity { vec_capacity self.new.rows ≡ vec_capacity self.old.rows }
    {
        self.rows.clear();
    }
}
