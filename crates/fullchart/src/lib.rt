//! The full chart: the working events, and an event for each silent station.
#![tactic(auto)]

ghost use Rattle.bookformat.specs.Bounded.{bounded_len};
ghost use Rattle.std.specs.Prelude.{◌≡◌, ◌<◌, ◌≤◌, length, nat_lt};
ghost use Rattle.bookformat.specs.Values.{BookValue, chart_value};
ghost use Rattle.bookformat.specs.Books.{book_value};
ghost use Rattle.bookformat.specs.Rules.{chart};
ghost use Rattle.paths.specs.Datings.{drift_of};
ghost use Rattle.fullchart.specs.Finds.{FirstOn, LastOn, WorkingHeld, SilentAdded, IsFull};

use bookformat::{Book, Bounded, Chart, Event};
use bookrecords::is_silent;

/// The stations of a full chart's events, by event number, and how many of them are working ones.
#[derive(Clone, Copy)]
pub struct FullChart {
    pub stations: Bounded<u8, 48>,
    pub working: usize,
}

/// Where the station first stands in the list.
pub fn first_on(stations: &[u8], station: u8) -> Option<usize>
    ensures { FirstOn stations.now station result }
{
    stations.iter().position(|s| *s == station)
}

/// Where the station last stands in the list.
pub fn last_on(stations: &[u8], station: u8) -> Option<usize>
    ensures { LastOn stations.now station result }
{
    stations.iter().rposition(|s| *s == station)
}

/// The stations of the working events.
fn working_stations(events: &[Event]) -> Bounded<u8, 48>
    requires { length events.now ≤ 40 }
    ensures { WorkingHeld events.now (length events.now) result }
{
    let mut stations = Bounded::default();
    for e in events {
        stations.push(e.station);
    }
    stations
}

/// One event more for each station that is silent.
fn add_silent(stations: &mut Bounded<u8, 48>, events: &[Event], count: u8)
    requires { (count ≤ 8) × (bounded_len stations.old ≤ 40) }
    ensures { SilentAdded stations.old stations.new events.now count }
{
    // (By the numbers of stations, which the book counts and no list holds.)
    for p in 0..count {
        if is_silent(events, usize::from(p)) {
            stations.push(p);
        }
    }
}

impl FullChart {
    /// The full chart of a chart among so many stations, of whatever book.
    pub fn of(stations: u8, chart: &Chart) -> FullChart
        requires { stations ≤ 8 }
        ensures { (b : BookValue) → b.stations ≡ stations → IsFull b (chart_value chart.now) result }
    {
        let events = chart.events.as_slice();
        let mut listed = working_stations(events);
        add_silent(&mut listed, events, stations);
        FullChart {
            stations: listed,
            working: events.len(),
        }
    }

    /// The full chart of a chart of the book.
    pub fn in_book(book: &Book, chart: &Chart) -> FullChart
        ensures { IsFull (book_value book.now) (chart_value chart.now) result }
    {
        FullChart::of(book.stations, chart)
    }

    /// The full chart of the chart with a number.
    pub fn numbered(book: &Book, number: usize) -> FullChart
        requires { number < length (book_value book.now).charts }
        ensures { IsFull (book_value book.now) (chart (book_value book.now) number) result }
    {
        FullChart::in_book(book, book.chart(number))
    }

    /// How many events it has.
    pub fn count(&self) -> usize
        ensures { result ≡ length self.now.stations.items }
    {
        self.stations.as_slice().len()
    }

    /// The drift bound of two of its events, of whatever book has these two: near for two working ones, else far.
    pub fn drift(&self, near: u16, far: u16, e: usize, f: usize) -> u16
        ensures { (b : BookValue) → b.near ≡ near → b.far ≡ far → result ≡ drift_of b (nat_lt e self.now.working) (nat_lt f self.now.working) }
    {
        if e < self.working && f < self.working {
            near
        } else {
            far
        }
    }

    /// The drift bound of two of its events, in the book.
    pub fn drift_in(&self, book: &Book, e: usize, f: usize) -> u16
        ensures { result ≡ drift_of (book_value book.now) (nat_lt e self.now.working) (nat_lt f self.now.working) }
    {
        self.drift(book.near, book.far, e, f)
    }
}
