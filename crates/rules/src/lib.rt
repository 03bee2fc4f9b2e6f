//! The rules of a dating, tested for one chart and for one link.
#![tactic(auto)]

ghost use Rattle.std.specs.Prelude.{◌≡◌, ℕ, ◌<◌, ◌≤◌, length, Decides};
ghost use Rattle.bookformat.specs.Values.{BookValue, ChartValue};
ghost use Rattle.bookformat.specs.Books.{book_value};
ghost use Rattle.bookformat.specs.Rules.{chart};
ghost use Rattle.paths.specs.Datings.{Within, KeepsChart, KeepsLink};
ghost use Rattle.fullchart.specs.Finds.{IsFull};
ghost use Rattle.rules.specs.Checks.{HoldBelow, FirstBroken, NamesDated, AllBelow, AllPairs, InOrder, InDrift};
ghost use Rattle.rules.specs.Checks.{Covered, Passes, StationKept, date};

use bookformat::{Book, Constraint, Event, Interval, Link};
use chartorder::is_directly_before;
use fullchart::{first_on, last_on};

mod dated;

pub use dated::DatedChart;

/// Does `second` minus `first` lie in the interval?
pub fn is_kept(interval: Interval, first: u32, second: u32) -> bool
    ensures { Decides result (Within interval first second) }
{
    let first = u64::from(first);
    let second = u64::from(second);
    let is_over = |upper: u16| second > first + u64::from(upper);
    second >= first + u64::from(interval.lower) && !interval.upper.is_some_and(is_over)
}

/// Which constraint is the first that the dates of a chart break.
pub fn first_broken(constraints: &[Constraint], dates: &[u32]) -> Option<usize>
    requires { (k : ℕ) → k < length constraints.now → NamesDated constraints.now dates.now k }
    ensures { FirstBroken constraints.now dates.now result }
{
    // (A `for` that returns what it finds first: that the judge goes over the constraints with `for` is a form that the project fixes.)
    for (k, c) in constraints.iter().enumerate() {
        let first = dates[usize::from(c.first)];
        let second = dates[usize::from(c.second)];
        if !is_kept(c.interval, first, second) {
            return Some(k);
        }
    }
    None
}

/// Do the dates of a chart keep all its constraints?
fn keeps_constraints(constraints: &[Constraint], dates: &[u32]) -> bool
    requires { (k : ℕ) → k < length constraints.now → NamesDated constraints.now dates.now k }
    ensures { Decides result (HoldBelow constraints.now dates.now (length constraints.now)) }
{
    first_broken(constraints, dates).is_none()
}

/// Is event `e` dated no later than `f`, if it is directly before it?
fn is_in_order(events: &[Event], dates: &[u32], e: usize, f: usize) -> bool
    requires { (e < length dates.now) × (f < length dates.now) }
    ensures { Decides result (InOrder events.now dates.now e f) }
{
    dates[e] <= dates[f] || !is_directly_before(events, e, f)
}

/// Is event `e` dated no later than each event that it is directly before?
fn keeps_order_from(events: &[Event], dates: &[u32], e: usize) -> bool
    requires { (e < length events.now) × (length events.now ≤ length dates.now) }
    ensures { Decides result (AllBelow (length events.now) (InOrder events.now dates.now e)) }
{
    (0..events.len()).all(|f| is_in_order(events, dates, e, f))
}

/// Do the dates keep the order of the chart's events?
fn keeps_order(events: &[Event], dates: &[u32]) -> bool
    requires { length events.now ≤ length dates.now }
    ensures { Decides result (AllPairs (length events.now) (InOrder events.now dates.now)) }
{
    (0..events.len()).all(|e| keeps_order_from(events, dates, e))
}

/// Is event `e` dated at most the drift bound after event `f`?
fn is_in_drift(book: &Book, dated: &DatedChart, e: usize, f: usize) -> bool
    requires { (e < length dated.now.dates.now) × (f < length dated.now.dates.now) }
    ensures { Decides result (InDrift (book_value book.now) dated.now.full.now.working dated.now.dates.now e f) }
{
    let bound = dated.full.drift_in(book, e, f);
    u64::from(dated.dates[e]) <= u64::from(dated.dates[f]) + u64::from(bound)
}

/// Is event `e` dated at most its drift bound after each other event?
fn keeps_drift_from(book: &Book, dated: &DatedChart, e: usize) -> bool
    requires { e < length dated.now.dates.now }
    ensures { Decides result (AllBelow (length dated.now.dates.now) (InDrift (book_value book.now) dated.now.full.now.working dated.now.dates.now e)) }
{
    (0..dated.dates.len()).all(|f| is_in_drift(book, dated, e, f))
}

/// Do no two events of the full chart differ by more than their drift bound?
fn keeps_drift(book: &Book, dated: &DatedChart) -> bool
    ensures { Decides result (AllPairs (length dated.now.dates.now) (InDrift (book_value book.now) dated.now.full.now.working dated.now.dates.now)) }
{
    (0..dated.dates.len()).all(|e| keeps_drift_from(book, dated, e))
}

/// Does a link's interval hold between the station's last event before the link and its first after it?
fn keeps_station(interval: Interval, station: u8, before: &DatedChart, after: &DatedChart) -> bool
    ensures { Decides result (StationKept interval station before.now.full.now.stations.items before.now.dates.now after.now.full.now.stations.items after.now.dates.now) }
{
    let last = last_on(&before.full.stations, station);
    let first = first_on(&after.full.stations, station);
    match (last, first) {
        (Some(e), Some(f)) => is_kept(interval, before.dates[e], after.dates[f]),
        _ => true,
    }
}

/// Does each interval of the link hold, between the chart that it leaves and the one that it enters?
pub fn keeps_link_in(book: &Book, link: &Link, before: &DatedChart, after: &DatedChart) -> bool
    requires left { IsFull (book_value book.now) (chart (book_value book.now) link.now.from) before.now.full.now }
    requires entered { IsFull (book_value book.now) (chart (book_value book.now) link.now.to) after.now.full.now }
    ensures { Decides result (KeepsLink (book_value book.now) link.now (chart (book_value book.now) link.now.from) (chart (book_value book.now) link.now.to) (date before.now.dates.now) (date after.now.dates.now)) }
{
    keeps_link(book.stations, link, before, after)
}

/// Does each interval of the link hold for so many stations, in whatever book has so many, between two charts of it?
pub fn keeps_link(stations: u8, link: &Link, before: &DatedChart, after: &DatedChart) -> bool
    requires { stations ≤ 8 }
    ensures { (b : BookValue) (c d : ChartValue) → b.stations ≡ stations → IsFull b c before.now.full.now → IsFull b d after.now.full.now → Decides result (KeepsLink b link.now c d (date before.now.dates.now) (date after.now.dates.now)) }
{
    // (A `for`: with `all` over the stations the proof was tried and not found.)
    for (station, interval) in (0..stations).zip(&link.intervals) {
        if !keeps_station(*interval, station, before, after) {
            return false;
        }
    }
    true
}

/// Do the dates of a chart's events pass the tests of all its rules?
fn passes_all(book: &Book, events: &[Event], constraints: &[Constraint], dated: &DatedChart) -> bool
    requires { Covered events.now constraints.now dated.now.dates.now }
    ensures { Decides result (Passes (book_value book.now) events.now constraints.now dated.now.full.now.working dated.now.dates.now) }
{
    keeps_order(events, dated.dates)
        && keeps_constraints(constraints, dated.dates)
        && keeps_drift(book, dated)
}

/// Do the dates keep the rules of the chart with a number?
pub fn keeps_chart(book: &Book, number: usize, dated: &DatedChart) -> bool
    requires exists { number < length (book_value book.now).charts }
    requires full { IsFull (book_value book.now) (chart (book_value book.now) number) dated.now.full.now }
    ensures { Decides result (KeepsChart (book_value book.now) (chart (book_value book.now) number) (date dated.now.dates.now)) }
{
    let chart = book.chart(number);
    passes_all(book, &chart.events, &chart.constraints, dated)
}
