// Dates that rise where an interval asks for it.
ghost use Rattle.std.specs.Prelude.{◌≡◌, ◌<◌, ◌≤◌, length};
ghost use Rattle.paths.specs.Datings.{Within};
ghost use Rattle.earliest.specs.Raising.{Raises, later, sooner};

use bookformat::Interval;

// Raises the date at a place to `date`, if it is earlier.
pub fn raise(dates: &mut [u32], at: usize, date: u32) -> bool
    requires { at < length dates.old }
    ensures { Raises (λ z. date ≤ z at) dates.old dates.new result }
{
    if dates[at] >= date {
        return false;
    }
    dates[at] = date;
    true
}

// The least date that is so many ticks after another.
fn least_after(date: u32, ticks: u16) -> u32
    ensures { result ≡ later date ticks }
{
    date.saturating_add(u32::from(ticks))
}

// The least date that is at most so many ticks before another.
fn least_before(date: u32, ticks: Option<u16>) -> u32
    ensures { result ≡ sooner date ticks }
{
    match ticks {
        Some(ticks) => date.saturating_sub(u32::from(ticks)),
        None => 0,
    }
}

// The second date minus the first lies in the interval.
pub fn raise_interval(dates: &mut [u32], first: usize, second: usize, interval: Interval) -> bool
    requires inside { (first < length dates.old) × (second < length dates.old) }
    requires small { interval.lower ≤ 10000 }
    ensures { Raises (λ z. Within interval (z first) (z second)) dates.old dates.new result }
{
    let after = least_after(dates[first], interval.lower);
    let mut changed = raise(dates, second, after);
    let before = least_before(dates[second], interval.upper);
    changed |= raise(dates, first, before);
    changed
}
