// Dates that rise where the rules of one chart ask for it.
ghost use Rattle.std.specs.Prelude.{◌≡◌, ℕ, ◌+◌, ◌-◌, ◌<◌, ◌≤◌, length, nat_lt};
ghost use Rattle.bookformat.specs.Books.{book_value};
ghost use Rattle.bookformat.specs.Rules.{chart};
ghost use Rattle.paths.specs.Datings.{drift_of};
ghost use Rattle.earliest.specs.Raising.{Raises};
ghost use Rattle.earliest.specs.Demands.{Each, BeforeKept, ConstraintKept, Meetable, DriftKept, ChartKept, Placed};

use crate::raising::{raise, raise_interval};
use bookformat::{Book, Constraint, Event};
use chartorder::is_directly_before;
use fullchart::FullChart;
use routes::Stop;

// A limit on the rounds over one chart: a full chart has at most 46 events.
const MAX_ROUNDS: usize = 48;

// Event f is dated no earlier than e, if e is directly before it.
fn raise_before(dates: &mut [u32], first: usize, events: &[Event], e: usize, f: usize) -> bool
    requires { (first + e < length dates.old) × (first + f < length dates.old) }
    ensures { Raises (BeforeKept events.now first e f) dates.old dates.new result }
{
    if !is_directly_before(events, e, f) {
        return false;
    }
    let date = dates[first + e];
    raise(dates, first + f, date)
}

// Event e, and all that it is directly before.
fn raise_later(dates: &mut [u32], first: usize, events: &[Event], e: usize) -> bool
    requires { (e < length events.now) × (first + length events.now ≤ length dates.old) }
    ensures { Raises (Each (length events.now) (BeforeKept events.now first e)) dates.old dates.new result }
{
    let mut changed = false;
    // (By numbers: `is_directly_before` goes by the numbers of two events, and the date of one is written.)
    for f in 0..events.len() {
        changed |= raise_before(dates, first, events, e, f);
    }
    changed
}

// The order of the chart.
fn raise_order(dates: &mut [u32], first: usize, events: &[Event]) -> bool
    requires { first + length events.now ≤ length dates.old }
    ensures { Raises (Each (length events.now) (λ e. Each (length events.now) (BeforeKept events.now first e))) dates.old dates.new result }
{
    let mut changed = false;
    // (By numbers: `is_directly_before` goes by the numbers of two events, and dates of the chart are written.)
    for e in 0..events.len() {
        changed |= raise_later(dates, first, events, e);
    }
    changed
}

// The constraints of the chart.
fn raise_constraints(dates: &mut [u32], first: usize, constraints: &[Constraint]) -> bool
    requires { (k : ℕ) → k < length constraints.now → Meetable (length dates.old) constraints.now first k }
    ensures { Raises (Each (length constraints.now) (ConstraintKept constraints.now first)) dates.old dates.new result }
{
    let mut changed = false;
    for c in constraints {
        changed |= raise_interval(
            dates,
            first + usize::from(c.first),
            first + usize::from(c.second),
            c.interval,
        );
    }
    changed
}

// The least date of f, where e has a date.
fn least_near(book: &Book, full: &FullChart, e: usize, f: usize, date: u32) -> u32
    ensures { result ≡ date - drift_of (book_value book.now) (nat_lt e full.now.working) (nat_lt f full.now.working) }
{
    date.saturating_sub(u32::from(full.drift_in(book, e, f)))
}

// No event is dated further before e than their drift bound.
fn raise_near(dates: &mut [u32], first: usize, book: &Book, full: &FullChart, e: usize) -> bool
    requires { (e < length full.now.stations.items) × (first + length full.now.stations.items ≤ length dates.old) }
    ensures { Raises (Each (length full.now.stations.items) (DriftKept (book_value book.now) full.now.working first e)) dates.old dates.new result }
{
    let mut changed = false;
    // (By numbers: `drift` goes by the numbers of two events, and the date of one is written.)
    for f in 0..full.count() {
        let date = least_near(book, full, e, f, dates[first + e]);
        changed |= raise(dates, first + f, date);
    }
    changed
}

// The drift bounds between all events of the full chart.
fn raise_drift(dates: &mut [u32], first: usize, book: &Book, full: &FullChart) -> bool
    requires { first + length full.now.stations.items ≤ length dates.old }
    ensures { Raises (Each (length full.now.stations.items) (λ e. Each (length full.now.stations.items) (DriftKept (book_value book.now) full.now.working first e))) dates.old dates.new result }
{
    let mut changed = false;
    // (By numbers: `drift` goes by the numbers of two events, and dates of the chart are written.)
    for e in 0..full.count() {
        changed |= raise_near(dates, first, book, full, e);
    }
    changed
}

// All rules of a chart, once each.
fn raise_chart(dates: &mut [u32], book: &Book, stop: &Stop) -> bool
    requires { Placed (book_value book.now) stop.now (length dates.old) }
    ensures { Raises (ChartKept (book_value book.now) (chart (book_value book.now) stop.now.number) stop.now.first) dates.old dates.new result }
{
    let chart = book.chart(stop.number);
    let mut changed = raise_order(dates, stop.first, &chart.events);
    changed |= raise_constraints(dates, stop.first, &chart.constraints);
    changed |= raise_drift(dates, stop.first, book, &stop.full);
    changed
}

// The same until nothing moves: a date that can be kept is reached in as many rounds as there are events.
pub fn settle(dates: &mut [u32], book: &Book, stop: &Stop) -> bool
    requires { Placed (book_value book.now) stop.now (length dates.old) }
    ensures { Raises (ChartKept (book_value book.now) (chart (book_value book.now) stop.now.number) stop.now.first) dates.old dates.new result }
{
    if !raise_chart(dates, book, stop) {
        return false;
    }
    // (So many rounds, none of which needs its number.)
    for _ in 0..MAX_ROUNDS {
        if !raise_chart(dates, book, stop) {
            return true;
        }
    }
    true
}
