// The bounds of a chart and of a link, added to a table.
ghost use Rattle.std.specs.Prelude.{◌≡◌, ℕ, ◌+◌, ◌<◌, ◌≤◌, length, pos, nat_lt, slice_index_or};
ghost use Rattle.bookformat.specs.Rules.{Proper, unbounded};
ghost use Rattle.bookformat.specs.Books.{book_value};
ghost use Rattle.paths.specs.Datings.{drift_of};
ghost use Rattle.steps.specs.Parts.{BeforeKept, OrderKeptFrom, OrderKept, ConstraintsKept, Enterable, DriftKept, DriftsKeptFrom, DriftsKept, entries_of, ProfileKeptFrom, ProfileKept, CrossingKept, CrossingsKept};

use crate::bounds::Bounds;
use crate::given::GivenProfile;
use bookformat::{Book, Constraint, Event, Interval};
use chartorder::is_directly_before;
use fullchart::{FullChart, first_on};

impl<'a> Bounds<'a> {
    ghost use Rattle.steps.specs.Fillings.{places, Adds, AtMost};

    // Event e no later than f, if it is directly before it.
    fn add_before(&mut self, first: usize, events: &[Event], e: usize, f: usize)
        requires inside { (first + e < places self.old) × (first + f < places self.old) }
        ensures { Adds self.old self.new (BeforeKept events.now first e f) }
    {
        if is_directly_before(events, e, f) {
            self.tighten(first + f, first + e, 0);
        }
    }

    // Event e no later than each event that it is directly before.
    fn add_order_from(&mut self, first: usize, events: &[Event], e: usize)
        requires inside { (e < length events.now) × (first + length events.now ≤ places self.old) }
        ensures { Adds self.old self.new (OrderKeptFrom events.now first e) }
    {
        // (By the numbers of events, here and in add_order: the bounds are written at every turn, and is_directly_before goes by numbers.)
        for f in 0..events.len() {
            self.add_before(first, events, e, f);
        }
    }

    // The order of a chart.
    pub fn add_order(&mut self, first: usize, events: &[Event])
        requires inside { first + length events.now ≤ places self.old }
        ensures { Adds self.old self.new (OrderKept events.now first) }
    {
        for e in 0..events.len() {
            self.add_order_from(first, events, e);
        }
    }

    // The constraints of a chart.
    pub fn add_constraints(&mut self, first: usize, constraints: &[Constraint])
        requires each { (k : ℕ) → k < length constraints.now → Enterable (places self.old) constraints.now first k }
        ensures { Adds self.old self.new (ConstraintsKept constraints.now first) }
    {
        for c in constraints {
            let earlier = first + usize::from(c.first);
            let later = first + usize::from(c.second);
            self.add_interval(earlier, later, c.interval);
        }
    }

    // The drift bound of two events of a full chart: e no more than that after f.
    fn add_drift(&mut self, first: usize, book: &Book, full: &FullChart, e: usize, f: usize)
        requires inside { (first + e < places self.old) × (first + f < places self.old) }
        ensures { Adds self.old self.new (AtMost (first + f) (first + e) (pos (drift_of (book_value book.now) (nat_lt e full.now.working) (nat_lt f full.now.working)))) }
    {
        let bound = full.drift_in(book, e, f);
        self.tighten(first + f, first + e, i32::from(bound));
    }

    // The drift bounds of one event.
    fn add_drifts_from(&mut self, first: usize, book: &Book, full: &FullChart, e: usize)
        requires inside { (e < length full.now.stations.items) × (first + length full.now.stations.items ≤ places self.old) }
        ensures { Adds self.old self.new (DriftsKeptFrom (book_value book.now) full.now.working (length full.now.stations.items) first e) }
    {
        // (By the numbers of events, here and in add_drifts: the bounds are written at every turn, and drift goes by numbers.)
        for f in 0..full.count() {
            self.add_drift(first, book, full, e, f);
        }
    }

    // The drift bounds between all events of a full chart.
    pub fn add_drifts(&mut self, first: usize, book: &Book, full: &FullChart)
        requires inside { first + length full.now.stations.items ≤ places self.old }
        ensures { Adds self.old self.new (DriftsKept (book_value book.now) full.now.working (length full.now.stations.items) first) }
    {
        for e in 0..full.count() {
            self.add_drifts_from(first, book, full, e);
        }
    }

    // One entry of the profile of the stations' last events, which stand at the first places.
    fn add_profile_entry(&mut self, profile: &GivenProfile, p: usize, q: usize)
        requires inside { (p < 8) × (q < 8) × (p < places self.old) × (q < places self.old) }
        ensures { Adds self.old self.new (AtMost q p (entries_of profile.now.entries.now p q)) }
    {
        self.tighten(q, p, profile.entry(p, q));
    }

    // The entries of one station with each other.
    fn add_profile_from(&mut self, stations: usize, profile: &GivenProfile, p: usize)
        requires inside { (p < stations) × (stations ≤ 8) × (stations ≤ places self.old) }
        ensures { Adds self.old self.new (ProfileKeptFrom (entries_of profile.now.entries.now) stations p) }
    {
        // (By the numbers of stations, here and in add_profile: the bounds are written at every turn, and entry goes by numbers.)
        for q in 0..stations {
            self.add_profile_entry(profile, p, q);
        }
    }

    // The whole profile.
    pub fn add_profile(&mut self, stations: usize, profile: &GivenProfile)
        requires inside { (stations ≤ 8) × (stations ≤ places self.old) }
        ensures { Adds self.old self.new (ProfileKept (entries_of profile.now.entries.now) stations) }
    {
        for p in 0..stations {
            self.add_profile_from(stations, profile, p);
        }
    }

    // A link's interval for one station, between its last event before the link and its first event after it.
    fn add_crossing(&mut self, interval: Interval, events: &[u8], stations: u8, p: u8)
        requires inside { (stations + length events.now ≤ places self.old) × (p < stations) }
        requires proper { Proper interval }
        ensures { Adds self.old self.new (CrossingKept interval events.now stations p) }
    {
        if let Some(f) = first_on(events, p) {
            self.add_interval(usize::from(p), usize::from(stations) + f, interval);
        }
    }

    // A link's intervals.
    pub fn add_crossings(&mut self, intervals: &[Interval; 8], events: &[u8], stations: u8)
        requires inside { (stations + length events.now ≤ places self.old) × (stations ≤ 8) }
        requires proper { (p : ℕ) → p < 8 → Proper (slice_index_or intervals.now p unbounded) }
        ensures { Adds self.old self.new (CrossingsKept intervals.now events.now stations stations) }
    {
        for (p, interval) in (0..stations).zip(intervals) {
            self.add_crossing(*interval, events, stations, p);
        }
    }
}
