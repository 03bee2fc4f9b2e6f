// The bounds of a chart alone and of a step, closed and read.
ghost use Rattle.std.specs.Prelude.{◌≡◌, ◌+◌, ◌<◌, ◌≤◌, length};
ghost use Rattle.bookformat.specs.Rules.{chart, link as link_numbered};
ghost use Rattle.bookformat.specs.Books.{book_value};
ghost use Rattle.fullchart.specs.Finds.{IsFull};
ghost use Rattle.paths.specs.Charts.{event_count};
ghost use Rattle.paths.specs.Datings.{KeepsChart};
ghost use Rattle.steps.specs.Answers.{ChartAnswer, StepAnswer};
ghost use Rattle.steps.specs.Parts.{entries_of};

use crate::bounds::{Bounds, MOST_ENTRIES};
use crate::given::GivenProfile;
use crate::profiles::closed_profile;
use bookformat::Book;
use closure::Ticks;
use fullchart::FullChart;

impl<'a> Bounds<'a> {
    ghost use Rattle.steps.specs.Fillings.{places, Adds};

    // The rules of a chart, whose event 0 stands at the place `first`.
    fn add_chart(&mut self, first: usize, book: &Book, number: usize, full: &FullChart)
        requires exists { number < length (book_value book.now).charts }
        requires full { IsFull (book_value book.now) (chart (book_value book.now) number) full.now }
        requires inside { first + event_count (book_value book.now) (chart (book_value book.now) number) ≤ places self.old }
        ensures { Adds self.old self.new (λ z. KeepsChart (book_value book.now) (chart (book_value book.now) number) (λ e. z (first + e))) }
    {
        let chart = book.chart(number);
        self.add_order(first, &chart.events);
        self.add_constraints(first, &chart.constraints);
        self.add_drifts(first, book, full);
    }
}

// The profile of a chart alone.
pub fn chart_profile(
    storage: &mut [Ticks; MOST_ENTRIES],
    book: &Book,
    number: usize,
) -> Option<[i16; 64]>
    requires exists { number < length (book_value book.now).charts }
    ensures { ChartAnswer (book_value book.now) (chart (book_value book.now) number) result }
{
    let full = FullChart::numbered(book, number);
    let mut bounds = Bounds::none(storage, full.count());
    bounds.add_chart(0, book, number, &full);
    let Bounds { mut table } = bounds;
    closed_profile(&mut table, 0, &full.stations)
}

// The profile after a link into a chart. The stations' last events before the link stand at the
// first places, the events of the chart after them.
pub fn entered_profile(
    storage: &mut [Ticks; MOST_ENTRIES],
    book: &Book,
    from: &GivenProfile,
    link: usize,
) -> Option<[i16; 64]>
    requires exists { link < length (book_value book.now).links }
    ensures { StepAnswer (book_value book.now) (link_numbered (book_value book.now) link) (entries_of from.now.entries.now) result }
{
    let link = book.link(link);
    let chart = usize::from(link.to);
    let full = FullChart::numbered(book, chart);
    let stations = usize::from(book.stations);
    let events = full.stations.as_slice();
    let mut bounds = Bounds::none(storage, stations + full.count());
    bounds.add_profile(stations, from);
    bounds.add_crossings(&link.intervals, events, book.stations);
    bounds.add_chart(stations, book, chart, &full);
    let Bounds { mut table } = bounds;
    closed_profile(&mut table, stations, events)
}
