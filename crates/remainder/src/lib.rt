//! A register whose rows are found by the remainder of a sum over their numbers.
#![tactic(auto)]

ghost use Rattle.std.specs.Prelude.{◌≡◌, ◌<◌, ◌≤◌, length, vec_len, vec_capacity, fold};
ghost use Rattle.remainder.specs.Chains.{summed, class_sum, in_chain, Chained};
ghost use Rattle.register.specs.Making.{Makes};
ghost use Rattle.register.specs.Meaning.{Finds};
ghost use Rattle.rowstore.specs.Of.{store_rows, store_capacity};
ghost use Rattle.std.proofs.Common.{rules};

use register::{Class, Entered, Register, Row, Unmade};
use rowstore::Store;
use std::alloc::Global;

// So large that a change of one entry is seldom made up for by the next.
const FACTOR: u64 = 10_007;

/// The sum over the numbers of a class.
pub fn class_sum(class: &Class) -> u64
    ensures { result ≡ class_sum class.now }
{
    let entries = class.profile.entries.iter();
    entries.fold(u64::from(class.chart), |sum, entry| {
        sum.wrapping_mul(FACTOR)
            .wrapping_add_signed(i64::from(*entry))
    })
}

/// Rows are found by the remainder of a sum over their numbers.
// Rows with one remainder are in one chain: its head names the last of them, and `next` for each row the one before it.
// (Places in chains, and no map of std: a map asks for memory on insert, and the remainder of a sum is a form that the project fixes.)
// (`next` stands beside the store's rows: within them it would be a field that the register which compares rows in turn has no use for.)
#[derive(Drop)]
pub struct RemainderRegister {
    store: Store,
    heads: Vec<Option<u16>>,
    next: Vec<Option<u16>>,
    ghost some: { 0 < vec_len heads },
    ghost level: { vec_len next ≡ length (store_rows store) },
    ghost reserved: { store_capacity store ≤ vec_capacity next },
    ghost chained: { ∥ Chained (vec_len heads) (store_rows store) heads.items next.items ∥₁ },
}

impl RemainderRegister {
    /// An empty register for at most `capacity` rows.
    pub fn new(heap: Global, capacity: u16) -> Result<RemainderRegister, Unmade>
        ensures { Makes (λ s. store_rows s.store) (λ s. store_capacity s.store) capacity result }
    {
        let store = Store::new(heap, capacity)?;
        let next = Vec::with_capacity(heap, usize::from(capacity))?;
        // One chain more than rows, so that there always is one.
        let heads = vec![in heap; None; usize::from(capacity) + 1]?;
        Ok(RemainderRegister { store, heads, next })
    }

    // The chain where a row with that class is, if it is held.
    fn chain(&self, class: &Class) -> usize
        ensures { result ≡ in_chain (vec_len self.now.heads) class.now }
    {
        (class_sum(class) % self.heads.len() as u64) as usize
    }

    // The place of the row with that class, looked for along its chain.
    fn find(&self, class: &Class, chain: usize) -> Option<u16>
        requires { chain ≡ in_chain (vec_len self.now.heads) class.now }
        ensures { Finds (store_rows self.now.store) class.now result }
    {
        let rows = self.store.rows();
        // (A loop: `successors` counts as endless, and `find` takes only an iterator that ends.)
        let mut link = self.heads[chain];
        while let Some(place) = link {
            let at = usize::from(place);
            if rows[at].is_of(class) {
                return Some(place);
            }
            link = self.next[at];
        }
        None
    }
}

// (Calls handed on in the same words by both registers: a register generic in how it finds rows needs a trait of five methods with laws, and a scan would leave four of them empty.)
impl Register for RemainderRegister {
    ghost rows = { λ s. store_rows s.store };

    ghost capacity = { λ s. store_capacity s.store };

    ghost within = { Prim.search rules };

    ghost limited = { Prim.search rules };

    fn enter(&mut self, row: &Row) -> Entered {
        let chain = self.chain(&row.class);
        if let Some(place) = self.find(&row.class, chain) {
            return Entered::Known(place);
        }
        if self.store.is_full() {
            return Entered::Full;
        }
        let before = self.heads[chain];
        let place = self.store.append(row);
        self.next.push_reserved(before);
        self.heads[chain] = Some(place);
        Entered::New(place)
    }

    fn read(&self, place: u16, out: &mut Row) -> bool {
        let Some(row) = self.store.get(place) else {
            return false;
        };
        *out = *row;
        true
    }

    fn count(&self) -> u16 {
        self.store.count()
    }

    fn capacity(&self) -> u16 {
        self.store.capacity()
    }

    fn clear(&mut self) {
        self.store.clear();
        self.next.clear();
        self.heads.fill(None);
    }
}
