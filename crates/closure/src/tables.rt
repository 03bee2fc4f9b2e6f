// A table of weights, and closing it: round k lets every walk go by the place k.
ghost use Rattle.std.specs.Prelude.{◌≡◌, ℕ, ◌+◌, ◌*◌, ◌<◌, ◌≤◌, length, set, take, MatchOption};
ghost use Rattle.closure.specs.Kinds.{better_of, most_links, most_places};
ghost use Rattle.closure.specs.Walks.{Bad, Closure};
ghost use Rattle.closure.specs.Closings.{Closes, Filled, FirstBeyond, GivenBefore, Near, Sized, entry};
ghost use Rattle.closure.specs.Rounds.{Fair, Given, rows_after};

use crate::weights::Weight;

const MOST_PLACES: usize = 54;

/// Why a table could not be closed.
#[derive(Clone, Copy, PartialEq, Eq, Debug)]
pub enum Unclosed {
    /// There are more than 54 places, or the weights are not places times places in number; the table is unchanged.
    WrongSize,
    /// The weight at this index is the first that may not be given; the table is unchanged.
    OutOfRange(usize),
    /// A walk from this place back to itself is better than the unit; the table may hold anything.
    BadCycle(usize),
}

/// A square table of weights between up to 54 places, over a slice that holds it row after row.
#[derive(Drop)]
pub struct Table<'a, W> {
    weights: &'a mut [W],
    places: usize,
    ghost sized: { Sized places weights.now },
}

// The row that comes s rows after the row k, where the first follows the last.
fn row_after(places: usize, k: usize, s: usize) -> usize
    requires { (places ≤ most_places) × (k < places) × (s < places) }
    ensures { (result < places) × (rows_after places k result ≡ s) }
{
    if k + s < places {
        k + s
    } else {
        k + s - places
    }
}

// The better of what is there and two weights in turn.
fn improved<W: Weight>(old: W, first: W, second: W) -> W
    requires { (W.meaning.kind.reach most_links (W.meaning.value first)) × (W.meaning.kind.reach most_links (W.meaning.value second)) }
    ensures { W.meaning.value result ≡ better_of W.meaning.kind (W.meaning.kind.follow (W.meaning.value first) (W.meaning.value second)) (W.meaning.value old) }
{
    let via = first.follow(second);
    if via.is_better(old) { via } else { old }
}

impl<'a, W: Weight> Table<'a, W> {
    /// The table of so many places that the slice holds.
    pub fn over(weights: &'a mut [W], places: usize) -> Table<'a, W>
        requires { Sized places weights.old }
        ensures same_reference { result.weights.ghost_name ≡ weights.entry.ghost_name }
        ensures weights { result.weights.now ≡ weights.old }
        ensures places { result.places ≡ places }
    {
        Table { weights, places }
    }

    /// The table of so many places at the front of a storage.
    pub fn within(storage: &'a mut [W], places: usize) -> Table<'a, W>
        requires { (places ≤ most_places) × (places * places ≤ length storage.old) }
        ensures places { result.places ≡ places }
        ensures weights { result.weights.now ≡ take (places * places) storage.old }
    {
        Table::over(&mut storage[..places * places], places)
    }

    /// Writes each entry, by its row and column.
    pub fn fill<F: Fn(usize, usize) -> W>(&mut self, weight: F)
        requires { F.IsAlwaysCallable weight }
        ensures same_reference { self.new.weights.ghost_name ≡ self.old.weights.ghost_name }
        ensures places { self.new.places ≡ self.old.places }
        ensures filled { Filled (λ i j w. F.post weight i j w) self.new.places self.new.weights.now }
    {
        let places = self.places;
        // (The index taken apart: tried by rows of `chunks_exact_mut`, but no proof knows what a slice holds after it.)
        for (place, entry) in self.weights.iter_mut().enumerate() {
            *entry = weight(place / places, place % places);
        }
    }

    /// How many places the table has.
    pub fn places(&self) -> usize
        ensures { result ≡ self.now.places }
    {
        self.places
    }

    // Where the entry of row i and column j stands.
    fn place(&self, i: usize, j: usize) -> usize
        requires { (i < self.now.places) × (j < self.now.places) }
        ensures is { result ≡ i * self.now.places + j }
        ensures within { result < length self.now.weights.now }
    {
        i * self.places + j
    }

    /// The entry of row i and column j.
    pub fn at(&self, i: usize, j: usize) -> W
        requires { (i < self.now.places) × (j < self.now.places) }
        ensures { W.meaning.value result ≡ entry W.meaning self.now.places self.now.weights.now i j }
    {
        self.weights[self.place(i, j)]
    }

    /// Writes the entry of row i and column j.
    pub fn set(&mut self, i: usize, j: usize, weight: W)
        requires { (i < self.old.places) × (j < self.old.places) }
        ensures same_reference { self.new.weights.ghost_name ≡ self.old.weights.ghost_name }
        ensures places { self.new.places ≡ self.old.places }
        ensures weights { self.new.weights.now ≡ set self.old.weights.now (i * self.old.places + j) weight }
    {
        let place = self.place(i, j);
        self.weights[place] = weight;
    }

    // Whether the entry on the diagonal at i is better than the unit.
    fn is_bad(&self, i: usize) -> bool
        requires { i < self.now.places }
        ensures { result ≡ W.meaning.kind.better (entry W.meaning self.now.places self.now.weights.now i i) W.meaning.kind.unit }
    {
        self.at(i, i).is_better(W::unit())
    }

    // The index of the first weight that may not be given.
    fn first_beyond(&self) -> Option<usize>
        ensures { MatchOption result (GivenBefore W.meaning self.now.weights.now (length self.now.weights.now)) (λ p. FirstBeyond W.meaning self.now.weights.now p) }
    {
        self.weights.iter().position(|weight| !weight.is_given())
    }

    // The first place whose entry on the diagonal is better than the unit.
    fn bad_diagonal(&self) -> Option<usize>
        ensures { MatchOption result (Fair W.meaning.kind self.now.places (entry W.meaning self.now.places self.now.weights.now)) (λ p. Bad W.meaning.kind self.now.places (entry W.meaning self.now.places self.now.weights.now) p) }
    {
        (0..self.places).find(|p| self.is_bad(*p))
    }

    // Lets walks go by one place more in each round, until there is a place with a bad cycle.
    #[inline(always)]
    fn relax(&mut self) -> Option<usize>
        requires given { Given W.meaning.kind self.old.places (entry W.meaning self.old.places self.old.weights.now) }
        requires fair { Fair W.meaning.kind self.old.places (entry W.meaning self.old.places self.old.weights.now) }
        ensures same_reference { self.new.weights.ghost_name ≡ self.old.weights.ghost_name }
        ensures places { self.new.places ≡ self.old.places }
        ensures relaxed { MatchOption result (Closure W.meaning.kind self.old.places (entry W.meaning self.old.places self.old.weights.now) (entry W.meaning self.old.places self.new.weights.now) × Near W.meaning.kind self.old.places (entry W.meaning self.old.places self.new.weights.now)) (λ p. Bad W.meaning.kind self.old.places (entry W.meaning self.old.places self.old.weights.now) p) }
    {
        let places = self.places;
        let mut bad = None;
        // (Loops over indices, left by a label: the project fixes this form, and it is the fastest of those measured.)
        'rounds: for k in 0..places {
            // The round leaves the row k as it is. Apart from it, no row is both read and written,
            // so the compiler can relax several entries at once.
            for s in 1..places {
                let i = row_after(places, k, s);
                let head = self.at(i, k);
                for j in 0..places {
                    let best = improved(self.at(i, j), head, self.at(k, j));
                    self.set(i, j, best);
                }
                if self.is_bad(i) {
                    bad = Some(i);
                    break 'rounds;
                }
            }
        }
        bad
    }

    // Closes the table. Inlined where the table is a local one, so that its fields stay in registers:
    // otherwise closing takes four times as long.
    #[inline(always)]
    fn close_local(&mut self) -> Result<(), Unclosed>
        ensures same_reference { self.new.weights.ghost_name ≡ self.old.weights.ghost_name }
        ensures places { self.new.places ≡ self.old.places }
        ensures closes { Closes W.meaning self.old.places self.old.weights.now self.new.weights.now result }
    {
        self.first_beyond()
            .map_or(Ok(()), |p| Err(Unclosed::OutOfRange(p)))?;
        self.bad_diagonal()
            .map_or(Ok(()), |p| Err(Unclosed::BadCycle(p)))?;
        self.relax().map_or(Ok(()), |p| Err(Unclosed::BadCycle(p)))
    }

    /// Closes the table, or says why not.
    pub fn close(&mut self) -> Result<(), Unclosed>
        ensures same_reference { self.new.weights.ghost_name ≡ self.old.weights.ghost_name }
        ensures places { self.new.places ≡ self.old.places }
        ensures closes { Closes W.meaning self.old.places self.old.weights.now self.new.weights.now result }
    {
        close(self.weights, self.places)
    }
}

/// Closes a table of weights between up to 54 places, which the slice holds row after row, or says why not.
pub fn close<W: Weight>(table: &mut [W], places: usize) -> Result<(), Unclosed>
    ensures { Closes W.meaning places table.old table.new result }
{
    if places > MOST_PLACES || table.len() != places * places {
        return Err(Unclosed::WrongSize);
    }
    Table::over(table, places).close_local()
}
