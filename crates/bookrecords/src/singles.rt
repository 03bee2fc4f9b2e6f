ghost use Rattle.std.specs.Prelude.{◌≡◌, ◌+◌, ◌≤◌, ◌==◌};
ghost use Rattle.bookformat.specs.Layout.{byte, event_at, constraint_at};
ghost use Rattle.bookformat.specs.Reading.{head_tests, event_tests, constraint_tests};
ghost use Rattle.bookrecords.specs.Answers.{Tested};
ghost use Rattle.std.proofs.Common.{rules};

use crate::fields::{ChartHead, chart_head, constraint, event};
use crate::lists::Listed;
use crate::records::{CONSTRAINT_SIZE, EVENT_SIZE, RecordBytes, Watch, sized_record};
use bookformat::{ArrayVec, Bounded, Constraint, Event, Fault, Interval};

pub fn read_head<W: Watch>(
    book: &[u8],
    place: usize,
    number: usize,
    watch: &mut W,
) -> Result<ChartHead, Fault>
    requires { place ≤ 20000 }
    ensures { Tested result (head_tests book.now place) (λ h. h ≡ record { events = byte book.now place; constraints = byte book.now (place + 1); is_final = (byte book.now (place + 2) == 1) }) }
{
    let part = sized_record(book, place)?;
    watch.record(RecordBytes::ChartHead(part), number, place);
    let [events, constraints, final_mark] = *part;
    chart_head(
        usize::from(events),
        usize::from(constraints),
        final_mark,
        place,
    )
}

/// What an event's tests go by: how many stations the book has, and how many events the chart.
#[derive(Clone, Copy)]
pub struct EventSetting {
    pub stations: u8,
    pub events: usize,
}

impl Listed<EventSetting> for Event {
    const SIZE: usize = EVENT_SIZE;

    ghost SIZE = { 3 };

    ghost tests = { λ book setting place. event_tests book setting.stations setting.events place };

    ghost at = { event_at };

    ghost short = { Prim.search rules };

    fn read<W: Watch>(
        book: &[u8],
        place: usize,
        number: usize,
        setting: &EventSetting,
        watch: &mut W,
    ) -> Result<Event, Fault> {
        let part = sized_record(book, place)?;
        watch.record(RecordBytes::Event(part), number, place);
        let [station, kind, pair] = *part;
        event(station, kind, pair, setting, place)
    }
}

/// The constraint at a place, in a chart with such events.
pub fn read_constraint<W: Watch>(
    book: &[u8],
    place: usize,
    number: usize,
    events: &[Event],
    watch: &mut W,
) -> Result<Constraint, Fault>
    ensures { Tested result (constraint_tests book.now events.now place) (λ c. c ≡ constraint_at book.now place) }
{
    let part = sized_record(book, place)?;
    watch.record(RecordBytes::Constraint(part), number, place);
    let [first, second, lower_high, lower_low, upper_high, upper_low] = *part;
    let interval = Interval::from([lower_high, lower_low, upper_high, upper_low]);
    constraint(first, second, interval, events, place)
}

/// A constraint's tests go by the events of its chart.
impl Listed<Bounded<Event, 40>> for Constraint {
    const SIZE: usize = CONSTRAINT_SIZE;

    ghost SIZE = { 6 };

    ghost tests = { λ book events place. constraint_tests book events.items place };

    ghost at = { constraint_at };

    ghost short = { Prim.search rules };

    fn read<W: Watch>(
        book: &[u8],
        place: usize,
        number: usize,
        events: &Bounded<Event, 40>,
        watch: &mut W,
    ) -> Result<Constraint, Fault> {
        read_constraint(book, place, number, events, watch)
    }
}

/// So do they where the kit's list holds the events.
impl Listed<ArrayVec<Event, 40>> for Constraint {
    const SIZE: usize = CONSTRAINT_SIZE;

    ghost SIZE = { 6 };

    ghost tests = { λ book events place. constraint_tests book events.items place };

    ghost at = { constraint_at };

    ghost short = { Prim.search rules };

    fn read<W: Watch>(
        book: &[u8],
        place: usize,
        number: usize,
        events: &ArrayVec<Event, 40>,
        watch: &mut W,
    ) -> Result<Constraint, Fault> {
        read_constraint(book, place, number, events.as_slice(), watch)
    }
}
