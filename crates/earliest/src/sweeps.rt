// Sweeps along a path.
// (Dates and path side by side: tried as one struct with their two facts, `long` and `fits`, where each `&mut self` method has to promise that path and reference stay, so more clauses than those facts are.)
ghost use Rattle.std.specs.Prelude.{◌≡◌, ℕ, ◌+◌, ◌*◌, ◌<◌, ◌≤◌, false, length, Decides};
ghost use Rattle.bookformat.specs.Books.{book_value};
ghost use Rattle.paths.specs.Datings.{Datable};
ghost use Rattle.paths.specs.Listing.{events_of};
ghost use Rattle.earliest.specs.Raising.{date_at, Fitting, Rises, Raises};
ghost use Rattle.earliest.specs.Demands.{Each};
ghost use Rattle.routes.specs.Stops.{At};
ghost use Rattle.earliest.specs.Positions.{LinkAt, Entering, Leaving, Crossing, PathKept, Least, Settled};

use crate::charts::settle;
use crate::links::raise_link;
use routes::{BookPath, Stop};

// No interval of a book asks for more ticks.
const MAX_LOWER: u32 = 10_000;

// The link that leaves a position, then the chart that it enters.
fn enter(dates: &mut [u32], path: &BookPath, position: usize, left: &Stop, entered: &Stop) -> bool
    requires { Crossing (book_value path.now.book.now) path.now.links.now position left.now entered.now (length dates.old) }
    ensures { Raises (Entering (book_value path.now.book.now) path.now.links.now position) dates.old dates.new result }
{
    let mut changed = raise_link(dates, path.book, path.link(position), left, entered);
    changed |= settle(dates, path.book, entered);
    changed
}

// The link that leaves a position, and if that moves a date, then the chart there.
fn turn_back(
    dates: &mut [u32],
    path: &BookPath,
    position: usize,
    left: &Stop,
    entered: &Stop,
) -> bool
    requires { Crossing (book_value path.now.book.now) path.now.links.now position left.now entered.now (length dates.old) }
    ensures { Rises (Leaving (book_value path.now.book.now) path.now.links.now position) (LinkAt (book_value path.now.book.now) path.now.links.now position) dates.old dates.new result }
{
    if !raise_link(dates, path.book, path.link(position), left, entered) {
        return false;
    }
    settle(dates, path.book, left);
    true
}

// No event of the path has a later date in its earliest dating.
fn latest(path: &BookPath) -> u32
    ensures { result ≡ length path.now.links.now * (10000 + (book_value path.now.book.now).far) + (book_value path.now.book.now).far }
{
    let far = u32::from(path.book.far);
    path.links.len() as u32 * (MAX_LOWER + far) + far
}

// Is any of the dates later than this?
fn is_past(dates: &[u32], latest: u32) -> bool
    ensures { Decides result ((k : ℕ) × (k < length dates.now) × (latest < date_at dates.now k)) }
{
    dates.iter().any(|date| *date > latest)
}

// Goes forward from the first stop. Where a link moves the chart that it leaves, it turns back,
// at most so many positions behind the furthest one that it has reached. It gives up at a date past
// all earliest ones: without a dating, charts can move each other on and on.
fn walk(dates: &mut [u32], path: &BookPath, first: Stop, window: usize) -> bool
    requires long { length dates.old ≡ events_of (book_value path.now.book.now) path.now.links.now }
    requires at { At (book_value path.now.book.now) path.now.links.now 0 first }
    requires fits { Fitting dates.old }
    ensures { Rises (PathKept (book_value path.now.book.now) path.now.links.now) (Each (length path.now.links.now) (Entering (book_value path.now.book.now) path.now.links.now)) dates.old dates.new result }
{
    let latest = latest(path);
    let mut changed = false;
    let mut here = first;
    let mut position: usize = 0;
    let mut reached: usize = 0;
    // (A `while`: the walk turns back, so no range or iterator runs along its positions.)
    while position < path.links.len() {
        let next = path.stop_after(position, &here);
        changed |= enter(dates, path, position, &here, &next);
        let moved = turn_back(dates, path, position, &here, &next);
        changed |= moved;
        if !moved {
            here = next;
            position += 1;
            reached = reached.max(position);
        } else if dates[here.first] > latest {
            return changed;
        } else if position > 0 && reached - position < window {
            here = path.stop_before(position, &here);
            position -= 1;
        }
    }
    changed
}

// Forward along the whole path.
fn sweep_forward(dates: &mut [u32], path: &BookPath, window: usize) -> bool
    requires long { length dates.old ≡ events_of (book_value path.now.book.now) path.now.links.now }
    requires fits { Fitting dates.old }
    ensures raises { Raises (PathKept (book_value path.now.book.now) path.now.links.now) dates.old dates.new result }
    ensures settled { result ≡ false → Datable (book_value path.now.book.now) path.now.links.now → Least (book_value path.now.book.now) path.now.links.now dates.old → Settled (book_value path.now.book.now) path.now.links.now dates.new }
{
    let first = path.first_stop();
    let mut changed = settle(dates, path.book, &first);
    changed |= walk(dates, path, first, window);
    changed
}

// Back along the whole path, from its last stop.
fn sweep_back(dates: &mut [u32], path: &BookPath) -> bool
    requires { length dates.old ≡ events_of (book_value path.now.book.now) path.now.links.now }
    ensures { Rises (PathKept (book_value path.now.book.now) path.now.links.now) (λ _. Unit {0}) dates.old dates.new result }
{
    let mut changed = false;
    let mut here = path.stop_to(path.links.len(), dates.len());
    // (By positions, from the last one on: each stop is made from the one behind it.)
    for position in (0..path.links.len()).rev() {
        let left = path.stop_before(position + 1, &here);
        changed |= turn_back(dates, path, position, &left, &here);
        here = left;
    }
    changed
}

// Raises dates of which none is above that of any dating, until they are one, or one of them is past
// all earliest dates, so that there is no dating. It goes forward and back in turn, and each time
// forward with a wider window: so a link that moves many charts before it is met by going back once,
// and charts that move each other in turn by a small window.
pub fn rise(dates: &mut [u32], path: &BookPath)
    requires long { length dates.old ≡ events_of (book_value path.now.book.now) path.now.links.now }
    requires fits { Fitting dates.old }
    requires least { Least (book_value path.now.book.now) path.now.links.now dates.old }
    ensures { Datable (book_value path.now.book.now) path.now.links.now → Settled (book_value path.now.book.now) path.now.links.now dates.new }
{
    let latest = latest(path);
    let mut window: usize = 0;
    // (Until a sweep moves nothing: no count of turns is known before.)
    while sweep_forward(dates, path, window) {
        if is_past(dates, latest) {
            return;
        }
        sweep_back(dates, path);
        window = path.links.len().min(2 * window + 1);
    }
}
