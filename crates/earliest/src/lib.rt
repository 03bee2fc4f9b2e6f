//! The earliest dating of a path.
#![tactic(auto)]

ghost use Rattle.std.specs.Prelude.{◌≡◌, ℕ, ◌<◌, ◌≤◌, length, drop, slice_index};
ghost use Rattle.bookformat.specs.Books.{book_value};
ghost use Rattle.paths.specs.Datings.{Datable, Earliest};
ghost use Rattle.paths.specs.Listing.{events_of, written};

use routes::BookPath;
use sweeps::rise;

mod charts;
mod links;
mod raising;
mod sweeps;

// Every date 0.
fn clear(dates: &mut [u32])
    ensures { (k : ℕ) → k < length dates.new → slice_index dates.new k ≡ 0 }
{
    dates.fill(0);
}

/// Writes the earliest dating of a path, if it has one, to the front of the space, in order of path and
/// event number, and says how many dates those are. Where it has no dating, what is written there says nothing.
pub fn earliest_dates_if_datable(path: &BookPath, space: &mut [u32]) -> usize
    requires room { events_of (book_value path.now.book.now) path.now.links.now ≤ length space.old }
    ensures count { result ≡ events_of (book_value path.now.book.now) path.now.links.now }
    ensures dates { Datable (book_value path.now.book.now) path.now.links.now → Earliest (book_value path.now.book.now) path.now.links.now (written (book_value path.now.book.now) path.now.links.now space.new) }
    ensures rest { drop result space.new ≡ drop result space.old }
{
    let count = path.event_count();
    let dates = &mut space[..count];
    clear(dates);
    rise(dates, path);
    count
}

/// Writes the earliest dating of a path that has one to the front of the space, in order of path and
/// event number, and says how many dates those are.
pub fn earliest_dates(path: &BookPath, space: &mut [u32]) -> usize
    requires datable { Datable (book_value path.now.book.now) path.now.links.now }
    requires room { events_of (book_value path.now.book.now) path.now.links.now ≤ length space.old }
    ensures count { result ≡ events_of (book_value path.now.book.now) path.now.links.now }
    ensures dates { Earliest (book_value path.now.book.now) path.now.links.now (written (book_value path.now.book.now) path.now.links.now space.new) }
    ensures rest { drop result space.new ≡ drop result space.old }
{
    earliest_dates_if_datable(path, space)
}
