ghost use Rattle.std.specs.Prelude.{◌≡◌, ℕ, ◌+◌, ◌*◌, ◌<◌, ◌≤◌, length, MatchOption};
ghost use Rattle.bookformat.specs.Layout.{event_at, constraint_at, records, chart_place};
ghost use Rattle.bookformat.specs.Reading.{each, event_tests, pair_tests, constraint_tests, chart_tests};
ghost use Rattle.bookrecords.specs.Answers.{Tested};
ghost use Rattle.chartbook.specs.Answers.{AllPaired, ChartRead, ChartsRead, FirstUnpaired};

use bookformat::{Bounded, Chart, Event, Fault};
use bookrecords::{
    CONSTRAINT_SIZE, EVENT_SIZE, EventSetting, HEAD_SIZE, Watch, is_paired, read_bounded, read_head,
};
use chartorder::is_acyclic;

/// The first event that is not paired.
fn first_unpaired(events: &[Event]) -> Option<usize>
    ensures { MatchOption result (AllPaired events.now) (FirstUnpaired events.now) }
{
    (0..events.len()).find(|e| !is_paired(events, *e))
}

/// Tests each event's pairing, in turn; `place` is that of the first event record.
fn check_pairs(events: &Bounded<Event, 40>, place: usize) -> Result<(), Fault>
    requires { place ≤ 20003 }
    ensures { Tested result (each (pair_tests events.now.items place) (length events.now.items)) (λ _. Unit {0}) }
{
    match first_unpaired(events) {
        Some(e) => Err(Fault::BadEvent {
            place: place + EVENT_SIZE * e,
        }),
        None => Ok(()),
    }
}

/// The chart whose head is at `place`, and the place behind it.
fn read_chart<W: Watch>(
    book: &[u8],
    place: usize,
    number: usize,
    stations: u8,
    watch: &mut W,
) -> Result<(Chart, usize), Fault>
    requires { place ≤ 20000 }
    ensures { Tested result (chart_tests book.now stations place) (λ c. ChartRead book.now place c.0 c.1) }
{
    let head = read_head(book, place, number, watch)?;
    let setting = EventSetting {
        stations,
        events: head.events,
    };
    let events_place = place + HEAD_SIZE;
    let events = read_bounded(book, events_place, head.events, &setting, watch)?;
    check_pairs(&events, events_place)?;
    let constraints_place = events_place + EVENT_SIZE * head.events;
    let constraints = read_bounded(book, constraints_place, head.constraints, &events, watch)?;
    let is_sound = is_acyclic(&events);
    watch.order(number, is_sound);
    if !is_sound {
        return Err(Fault::CyclicOrder { place });
    }
    let next = constraints_place + CONSTRAINT_SIZE * head.constraints;
    Ok((
        Chart {
            events,
            constraints,
            is_final: head.is_final,
        },
        next,
    ))
}

/// So many charts from behind the header on, and the place behind them.
pub fn read_charts<W: Watch>(
    book: &[u8],
    count: usize,
    stations: u8,
    watch: &mut W,
) -> Result<(Bounded<Chart, 32>, usize), Fault>
    requires { count ≤ 32 }
    ensures { Tested result (each (λ k. chart_tests book.now stations (chart_place book.now k)) count) (λ c. ChartsRead book.now count c.0 c.1) }
{
    let mut charts = Bounded::default();
    let mut place = 13;
    // (By a chart's number: how many there are is read, and no list of them stands yet.)
    for k in 0..count {
        let (chart, next) = read_chart(book, place, k, stations, watch)?;
        charts.push(chart);
        place = next;
    }
    Ok((charts, place))
}
