// Dates that rise where the intervals of one link ask for it.
ghost use Rattle.std.specs.Prelude.{ℕ, ◌+◌, ◌<◌, ◌≤◌, length};
ghost use Rattle.bookformat.specs.Books.{book_value};
ghost use Rattle.bookformat.specs.Rules.{chart};
ghost use Rattle.paths.specs.Datings.{interval};
ghost use Rattle.earliest.specs.Raising.{Raises};
ghost use Rattle.earliest.specs.Demands.{Placed, StationKept, LinkKept};

use crate::raising::raise_interval;
use bookformat::{Book, Interval, Link};
use fullchart::{first_on, last_on};
use routes::Stop;

// A station's interval, between its last event before the link and its first after it.
fn raise_station(
    dates: &mut [u32],
    interval: Interval,
    station: u8,
    left: &Stop,
    entered: &Stop,
) -> bool
    requires left { left.now.first + length left.now.full.stations.items ≤ length dates.old }
    requires entered { entered.now.first + length entered.now.full.stations.items ≤ length dates.old }
    requires small { interval.lower ≤ 10000 }
    ensures { Raises (StationKept interval station left.now.full.stations.items left.now.first entered.now.full.stations.items entered.now.first) dates.old dates.new result }
{
    let last = last_on(&left.full.stations, station);
    let first = first_on(&entered.full.stations, station);
    match (last, first) {
        (Some(e), Some(f)) => raise_interval(dates, left.first + e, entered.first + f, interval),
        _ => false,
    }
}

// All intervals of a link, with the charts that it leaves and enters.
pub fn raise_link(dates: &mut [u32], book: &Book, link: &Link, left: &Stop, entered: &Stop) -> bool
    requires small { (p : ℕ) → (interval link.now p).lower ≤ 10000 }
    requires left { Placed (book_value book.now) left.now (length dates.old) }
    requires entered { Placed (book_value book.now) entered.now (length dates.old) }
    ensures { Raises (LinkKept (book_value book.now) link.now (chart (book_value book.now) left.now.number) left.now.first (chart (book_value book.now) entered.now.number) entered.now.first) dates.old dates.new result }
{
    let mut changed = false;
    for (station, interval) in (0..book.stations).zip(&link.intervals) {
        changed |= raise_station(dates, *interval, station, left, entered);
    }
    changed
}
