//! A register whose rows are compared in turn.
#![tactic(auto)]

ghost use Rattle.register.specs.Making.{Makes};
ghost use Rattle.register.specs.Meaning.{Finds};
ghost use Rattle.rowstore.specs.Of.{store_rows, store_capacity};
ghost use Rattle.std.proofs.Common.{rules};

use register::{Class, Entered, Register, Row, Unmade};
use rowstore::Store;
use std::alloc::Global;

/// Rows are compared in turn, from place 0 on.
#[derive(Drop)]
pub struct ScannedRegister {
    store: Store,
}

impl ScannedRegister {
    /// An empty register for at most `capacity` rows.
    pub fn new(heap: Global, capacity: u16) -> Result<ScannedRegister, Unmade>
        ensures { Makes (λ s. store_rows s.store) (λ s. store_capacity s.store) capacity result }
    {
        let store = Store::new(heap, capacity)?;
        Ok(ScannedRegister { store })
    }
}

// The first place that holds a row with that class.
fn find(rows: &[Row], class: &Class) -> Option<usize>
    ensures { Finds rows.now class.now result }
{
    rows.iter().position(|row| row.is_of(class))
}

// (Calls handed on in the same words by both registers: a register generic in how it finds rows needs a trait of five methods with laws, and a scan would leave four of them empty.)
impl Register for ScannedRegister {
    ghost rows = { λ s. store_rows s.store };

    ghost capacity = { λ s. store_capacity s.store };

    ghost within = { Prim.search rules };

    ghost limited = { Prim.search rules };

    fn enter(&mut self, row: &Row) -> Entered {
        if let Some(place) = find(self.store.rows(), &row.class) {
            return Entered::Known(place as u16);
        }
        if self.store.is_full() {
            return Entered::Full;
        }
        Entered::New(self.store.append(row))
    }

    fn read(&self, place: u16, out: &mut Row) -> bool {
        let Some(row) = self.store.get(place) else {
            return false;
        };
        *out = *row;
        true
    }

    fn count(&self) -> u16 {
        self.store.count()
    }

    fn capacity(&self) -> u16 {
        self.store.capacity()
    }

    fn clear(&mut self) {
        self.store.clear();
    }
}
