// Bounds between the dates of places, in a table of ticks, and how one more is added.
ghost use Rattle.std.specs.Prelude.{◌≡◌, ◌≤◌, ◌<◌, pos, neg_ℤ};
ghost use Rattle.bookformat.specs.Rules.{Proper};
ghost use Rattle.closure.specs.Tickings.{WithinTicks, ticks_value};
ghost use Rattle.paths.specs.Datings.{Within};
ghost use Rattle.steps.specs.Tables.{Usable, blank_weight};

use bookformat::Interval;
use closure::{Table, Ticks, Weight};

// A table whose entry from one place to another is the most ticks by which the date of the second may lie after that
// of the first. It can be closed.
#[derive(Drop)]
pub struct Bounds<'a> {
    pub table: Table<'a, Ticks>,
    ghost usable: { ∥ Usable table.places table.weights.now ∥₁ },
}

// The entries between 54 places: 8 stations before a link, and 46 events of the chart that it enters.
pub const MOST_ENTRIES: usize = 2_916;

// What stands in a table that asks nothing: 0 ticks from each place to itself.
fn blank(from: usize, to: usize) -> Ticks
    ensures { ticks_value result ≡ blank_weight from to }
{
    if from == to {
        Ticks::unit()
    } else {
        Ticks::NONE
    }
}

impl<'a> Bounds<'a> {
    ghost use Rattle.steps.specs.Fillings.{places, Adds, AtMost, Blank};

    // No bounds yet between so many places.
    pub fn none(storage: &'a mut [Ticks; MOST_ENTRIES], places: usize) -> Bounds<'a>
        requires { places ≤ 54 }
        ensures places { result.table.places ≡ places }
        ensures blank { Blank result }
    {
        let mut table = Table::within(storage, places);
        table.fill(|from, to| blank(from, to));
        Bounds { table }
    }

    // Keeps the better of the entry and so many ticks.
    pub fn tighten(&mut self, from: usize, to: usize, count: i32)
        requires inside { (from < places self.old) × (to < places self.old) }
        requires small { WithinTicks 10000 count }
        ensures { Adds self.old self.new (AtMost from to count) }
    {
        let ticks = Ticks::try_from(count).unwrap();
        if ticks.is_better(self.table.at(from, to)) {
            self.table.set(from, to, ticks);
        }
    }

    // The date of the second place minus that of the first is not below the interval.
    fn add_lower(&mut self, first: usize, second: usize, interval: Interval)
        requires inside { (first < places self.old) × (second < places self.old) }
        requires proper { Proper interval }
        ensures { Adds self.old self.new (AtMost second first (neg_ℤ (pos interval.lower))) }
    {
        self.tighten(second, first, -i32::from(interval.lower));
    }

    // The date of the second place minus that of the first lies in the interval.
    pub fn add_interval(&mut self, first: usize, second: usize, interval: Interval)
        requires inside { (first < places self.old) × (second < places self.old) }
        requires proper { Proper interval }
        ensures { Adds self.old self.new (λ z. Within interval (z first) (z second)) }
    {
        self.add_lower(first, second, interval);
        if let Some(upper) = interval.upper {
            self.tighten(first, second, i32::from(upper));
        }
    }
}
