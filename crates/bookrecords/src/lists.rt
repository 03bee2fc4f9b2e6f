// Records of one kind and size, one behind the other.
ghost use Rattle.std.specs.Prelude.{◌≡◌, ℕ, List, ◌+◌, ◌*◌, ◌≤◌};
ghost use Rattle.bookformat.specs.Layout.{records};
ghost use Rattle.bookformat.specs.Reading.{Test, each};
ghost use Rattle.bookrecords.specs.Answers.{Tested};

use crate::records::Watch;
use bookformat::{ArrayVec, Bounded, Fault};

/// What stands in lists of records of one size. `S` is what its tests go by besides the bytes.
pub trait Listed<S>: Default + Drop {
    /// How many bytes a record has.
    const SIZE: usize;

    ghost SIZE: { ℕ };

    // The tests of the record at a place, and what it says.
    ghost tests: { List ℕ → S → ℕ → List Test };

    ghost at: { List ℕ → ℕ → Self };

    /// The record at a place, which the watcher is told of by its number.
    fn read<W: Watch>(
        book: &[u8],
        place: usize,
        number: usize,
        setting: &S,
        watch: &mut W,
    ) -> Result<Self, Fault>
        ensures { Tested result (tests book.now setting.now place) (λ x. x ≡ at book.now place) };

    ghost short: { SIZE ≤ 34 };
}

/// So many records from a place on, each tested as it is read.
pub fn read_list<T: Listed<S>, S, W: Watch, const N: usize>(
    book: &[u8],
    place: usize,
    count: usize,
    setting: &S,
    watch: &mut W,
) -> Result<ArrayVec<T, N>, Fault>
    requires near { place ≤ 25000 }
    requires few { count ≤ 128 }
    requires room { count ≤ N }
    ensures { Tested result (each (λ k. T.tests book.now setting.now (place + T.SIZE * k)) count) (λ xs. xs.items ≡ records (T.at book.now) T.SIZE place count) }
{
    let mut list = ArrayVec::new();
    // (By a record's number, from which its place is reckoned: there is no list of records yet.)
    for number in 0..count {
        let item = T::read(book, place + T::SIZE * number, number, setting, watch)?;
        list.push(item);
    }
    Ok(list)
}

/// The same records, where `=` copies each of them, in a list that is copied by `=` too, such as books hold.
pub fn read_bounded<T: Listed<S> + Copy, S, W: Watch, const N: usize>(
    book: &[u8],
    place: usize,
    count: usize,
    setting: &S,
    watch: &mut W,
) -> Result<Bounded<T, N>, Fault>
    requires near { place ≤ 25000 }
    requires few { count ≤ 128 }
    requires room { count ≤ N }
    ensures { Tested result (each (λ k. T.tests book.now setting.now (place + T.SIZE * k)) count) (λ xs. xs.items ≡ records (T.at book.now) T.SIZE place count) }
{
    let mut list = Bounded::default();
    // (By a record's number, from which its place is reckoned: there is no list of records yet.)
    for k in 0..count {
        let item = T::read(book, place + T::SIZE * k, k, setting, watch)?;
        list.push(item);
    }
    Ok(list)
}
