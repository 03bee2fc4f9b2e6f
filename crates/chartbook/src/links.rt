ghost use Rattle.std.specs.Prelude.{◌≡◌, ℕ, ◌+◌, ◌*◌, ◌≤◌, map, length};
ghost use Rattle.bookformat.specs.Values.{chart_value};
ghost use Rattle.bookformat.specs.Layout.{interval_at, link_at, records};
ghost use Rattle.bookformat.specs.Reading.{each, is_apart, station_tests, link_tests};
ghost use Rattle.bookrecords.specs.Answers.{Tested};
ghost use Rattle.std.proofs.Common.{rules};

use bookformat::{Bounded, Chart, Event, Fault, Interval, Link};
use bookrecords::{
    Header, LINK_SIZE, Listed, RecordBytes, Watch, check_ends, check_interval, is_apart,
    sized_record,
};

/// What a link's tests go by: the header, and all charts.
#[derive(Drop)]
pub struct Front {
    pub header: Header,
    pub charts: Bounded<Chart, 32>,
}

/// The intervals in the record of a link between charts with such events.
fn read_intervals(
    part: &[u8; LINK_SIZE],
    place: usize,
    stations: u8,
    before: &[Event],
    after: &[Event],
) -> Result<[Interval; 8], Fault>
    ensures { Tested result (each (λ p. station_tests (interval_at part.now (2 + 4 * p)) (is_apart stations before.now after.now p) place) 8) (λ is. is ≡ records (interval_at part.now) 4 2 8) }
{
    let mut intervals = [Interval::default(); 8];
    // (Its bytes by the station's number: zipped with their chunks, the loop names no list of the intervals written.)
    for (station, interval) in intervals.iter_mut().enumerate() {
        let at = 2 + 4 * station;
        let read = Interval::from([part[at], part[at + 1], part[at + 2], part[at + 3]]);
        check_interval(read, is_apart(stations, before, after, station), place)?;
        *interval = read;
    }
    Ok(intervals)
}

impl Listed<Front> for Link {
    const SIZE: usize = LINK_SIZE;

    ghost SIZE = { 34 };

    ghost tests = { λ book front place. link_tests book front.header.stations (map chart_value front.charts.items) place };

    ghost at = { link_at };

    ghost short = { Prim.search rules };

    fn read<W: Watch>(
        book: &[u8],
        place: usize,
        number: usize,
        front: &Front,
        watch: &mut W,
    ) -> Result<Link, Fault> {
        let part = sized_record(book, place)?;
        watch.record(RecordBytes::Link(part), number, place);
        let [from, to, ..] = *part;
        let earlier = usize::from(from);
        let later = usize::from(to);
        check_ends(earlier, later, front.charts.len(), place)?;
        let before = front.charts[earlier].events.as_slice();
        let after = front.charts[later].events.as_slice();
        let intervals = read_intervals(part, place, front.header.stations, before, after)?;
        Ok(Link {
            from,
            to,
            intervals,
        })
    }
}
