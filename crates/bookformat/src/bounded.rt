ghost use Rattle.std.specs.Prelude.{◌≡◌, ◌+◌, ◌<◌, ◌≤◌, [], ◌∷◌, ◌++◌, length};
ghost use Rattle.bookformat.specs.Bounded.{bounded_len};

use std::alloc::AllocError;
use std::marker::Model;
use std::ops::DerefSlice;

/// A list of at most N items that needs no heap and is copied by `=`.
// (`ArrayVec` of the kit is not copied by `=`, and books, charts and full charts are.)
#[derive(Copy)]
pub struct Bounded<T, const N: usize> {
    cells: [T; N],
    len: usize,
    ghost within: { len ≤ N },
}

impl<T, const N: usize> Model for Bounded<T, N> {
    ghost use Rattle.std.specs.Prelude.{◌≡◌, ◌≤◌, ◌++◌, length, take, drop};
    ghost use Rattle.std.specs.Coded.{le_prop};
    ghost use Rattle.std.proofs.Common.{arith, take-append-drop, length-take-le};
    ghost use mathlib.Core.HLevel.{is_prop→PathP};
    ghost use Rattle.bookformat.specs.Bounded.{Bounded as Items, bounded_code, take_fits};

    ghost Value = { Items T N };

    ghost coded = { bounded_code T.code };

    ghost view = { λ b. record {
      items = take b.len b.cells;
      spare = drop b.len b.cells;
      fits = take_fits b.len N b.cells b.within;
    } };

    ghost invariant = { λ b. length b.cells ≡ N };

    ghost inverse = { λ v. record { cells = v.items ++ v.spare; len = length v.items; within = v.fits } };

    ghost inverse_ok = { λ b h.
        let len : length (take b.len b.cells) ≡ b.len = length-take-le b.len b.cells (omega (arith, h, b.within)) in
        λ i. record {
          cells = take-append-drop b.len b.cells i;
          len = len i;
          within = is_prop→PathP (λ j. len j ≤ N) (λ j. le_prop) (take_fits b.len N b.cells b.within) b.within i;
        } };
}

// (Not derived, so that it says that a copy is the same.)
impl<T: Copy, const N: usize> Clone for Bounded<T, N> {
    ghost is_clone = { λ old new. new ≡ old };

    ghost is_infallible = { λ _. Unit {0} };

    fn clone(&self) -> Result<Bounded<T, N>, AllocError> {
        Ok(*self)
    }
}

impl<T: Copy, const N: usize> Bounded<T, N> {
    /// No items; `blank` fills the storage.
    pub fn new(blank: T) -> Bounded<T, N>
        ensures { result.items ≡ [] }
    {
        Bounded {
            cells: [blank; N],
            len: 0,
        }
    }

    /// One item more, where there is room.
    pub fn push(&mut self, item: T)
        requires { bounded_len self.old < N }
        ensures items { self.new.items ≡ self.old.items ++ item ∷ [] }
        ensures len { bounded_len self.new ≡ bounded_len self.old + 1 }
    {
        let at = self.len;
        self.cells[at] = item;
        self.len = at + 1;
    }
}

impl<T: Copy + Default, const N: usize> Default for Bounded<T, N> {
    ghost is_default = { λ v. v.items ≡ [] };

    fn default() -> Bounded<T, N> {
        Bounded::new(T::default())
    }
}

impl<T, const N: usize> DerefSlice for Bounded<T, N> {
    type Elem = T;

    ghost deref_gives = { λ v xs. (xs ≡ v.items) × (length xs ≤ N) };

    fn deref(&self) -> &[T] {
        self.as_slice()
    }
}

impl<T, const N: usize> Bounded<T, N> {
    /// The items, in order.
    pub fn as_slice(&self) -> &[T]
        ensures value { result.now ≡ self.now.items }
        ensures fits { length result.now ≤ N }
    {
        let all = &self.cells[..];
        &all[0..self.len]
    }

    /// How many items there are.
    pub fn len(&self) -> usize
        ensures value { result ≡ bounded_len self.now }
        ensures fits { result ≤ N }
    {
        self.as_slice().len()
    }
}
