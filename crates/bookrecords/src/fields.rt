ghost use Rattle.std.specs.Prelude.{◌≡◌, ◌<◌, ◌≤◌, length, nat_eq};
ghost use Rattle.bookformat.specs.Layout.{kind_of};
ghost use Rattle.bookformat.specs.Reading.{is_proper, is_unbounded, is_paired, is_silent, is_apart, station_tests, ends_fields, end_test, header_fields, head_fields, event_fields, constraint_fields};
ghost use Rattle.bookrecords.specs.Answers.{Tested};

use crate::singles::EventSetting;
use bookformat::{Constraint, Event, Fault, Interval, Kind};
use chartorder::is_directly_before;

/// The most that an end of an interval or a drift bound may be.
const MOST: u16 = 10_000;

/// The fields of the header after the mark.
#[derive(Clone, Copy)]
pub struct Header {
    pub stations: u8,
    pub charts: usize,
    pub first: u8,
    pub links: usize,
    pub near: u16,
    pub far: u16,
}

/// The fields of a chart's head.
#[derive(Clone, Copy)]
pub struct ChartHead {
    pub events: usize,
    pub constraints: usize,
    pub is_final: bool,
}

impl Header {
    /// The header, where each field is in its range.
    pub fn tested(self) -> Result<Header, Fault>
        ensures { Tested result (header_fields self.stations self.charts self.first self.links self.near self.far) (λ h. h ≡ self) }
    {
        let place = if !(2..=8).contains(&self.stations) {
            5
        } else if !(1..=32).contains(&self.charts) {
            6
        } else if usize::from(self.first) >= self.charts {
            7
        } else if self.links > 128 {
            8
        } else if self.near > MOST {
            9
        } else if self.far > MOST || self.near > self.far {
            11
        } else {
            return Ok(self);
        };
        Err(Fault::FieldOutOfRange { place })
    }
}

/// A chart's head by its three bytes.
pub fn chart_head(
    events: usize,
    constraints: usize,
    final_mark: u8,
    place: usize,
) -> Result<ChartHead, Fault>
    requires { place ≤ 20000 }
    ensures { Tested result (head_fields events constraints final_mark place) (λ h. h ≡ record { events = events; constraints = constraints; is_final = nat_eq final_mark 1 }) }
{
    if !(2..=40).contains(&events) || events % 2 != 0 {
        return Err(Fault::FieldOutOfRange { place });
    }
    if constraints > 64 {
        return Err(Fault::FieldOutOfRange { place: place + 1 });
    }
    if final_mark > 1 {
        return Err(Fault::FieldOutOfRange { place: place + 2 });
    }
    Ok(ChartHead {
        events,
        constraints,
        is_final: final_mark == 1,
    })
}

/// Is no end above 10,000, and the lower not above the upper?
pub fn is_proper(i: Interval) -> bool
    ensures { result ≡ is_proper i }
{
    i.lower <= MOST
        && i.upper
            .is_none_or(|upper| upper <= MOST && i.lower <= upper)
}

/// Is it 0, none?
fn is_unbounded(i: Interval) -> bool
    ensures { result ≡ is_unbounded i }
{
    i.lower == 0 && i.upper.is_none()
}

/// An event by its three bytes.
pub fn event(
    station: u8,
    kind: u8,
    pair: u8,
    setting: &EventSetting,
    place: usize,
) -> Result<Event, Fault>
    ensures { Tested result (event_fields setting.now.stations setting.now.events station kind pair place) (λ e. e ≡ record { station = station; kind = kind_of kind; pair = pair }) }
{
    let fault = Fault::BadEvent { place };
    let kind = Kind::try_from(kind).map_err(|_| fault)?;
    if station >= setting.stations || usize::from(pair) >= setting.events {
        return Err(fault);
    }
    Ok(Event {
        station,
        kind,
        pair,
    })
}

/// Is the pair of event `e` an event of the other kind, on another station, whose pair is `e`?
pub fn is_paired(events: &[Event], e: usize) -> bool
    requires { e < length events.now }
    ensures { result ≡ is_paired events.now e }
{
    let one = events[e];
    let pair = usize::from(one.pair);
    if pair >= events.len() {
        return false;
    }
    let other = events[pair];
    usize::from(other.pair) == e && other.kind != one.kind && other.station != one.station
}

/// A constraint by its fields, in a chart with such events.
pub fn constraint(
    first: u8,
    second: u8,
    interval: Interval,
    events: &[Event],
    place: usize,
) -> Result<Constraint, Fault>
    ensures { Tested result (constraint_fields events.now first second interval place) (λ c. c ≡ record { first = first; second = second; interval = interval }) }
{
    if !is_directly_before(events, usize::from(first), usize::from(second)) {
        return Err(Fault::NotDirectlyBefore { place });
    }
    if !is_proper(interval) {
        return Err(Fault::BadConstraintInterval { place });
    }
    Ok(Constraint {
        first,
        second,
        interval,
    })
}

/// Is no event on the station?
pub fn is_silent(events: &[Event], station: usize) -> bool
    ensures { result ≡ is_silent events.now station }
{
    events.iter().all(|e| usize::from(e.station) != station)
}

/// Does the station take no part in a link between charts with such events?
pub fn is_apart(stations: u8, before: &[Event], after: &[Event], station: usize) -> bool
    ensures { result ≡ is_apart stations before.now after.now station }
{
    station >= usize::from(stations) || is_silent(before, station) || is_silent(after, station)
}

/// Tests the interval of a station that does or does not take part in a link.
pub fn check_interval(interval: Interval, is_apart: bool, place: usize) -> Result<(), Fault>
    ensures { Tested result (station_tests interval is_apart place) (λ _. Unit {0}) }
{
    if !is_proper(interval) {
        return Err(Fault::BadLinkInterval { place });
    }
    if is_apart && !is_unbounded(interval) {
        return Err(Fault::IntervalNotDue { place });
    }
    Ok(())
}

/// Tests that there are the charts that a link names.
pub fn check_ends(from: usize, to: usize, charts: usize, place: usize) -> Result<(), Fault>
    ensures { Tested result (ends_fields charts from to place) (λ _. (from < charts) × (to < charts)) }
{
    if from >= charts || to >= charts {
        return Err(Fault::NoSuchChart { place });
    }
    Ok(())
}

/// Tests that the book, which has so many bytes, ends at a place.
pub fn check_end(size: usize, place: usize) -> Result<(), Fault>
    ensures { Tested result (end_test size place) (λ _. Unit {0}) }
{
    if size > place {
        return Err(Fault::TrailingBytes { place });
    }
    Ok(())
}
