// Profiles, read out of a closed table.
ghost use Rattle.std.specs.Prelude.{◌≡◌, ◌+◌, ◌≤◌, ◌⊎◌, length, MatchOption, Some};
ghost use Rattle.fullchart.specs.Finds.{NotBelow, LastOn};
ghost use Rattle.paths.specs.Tables.{ShortestWalks, Table as Entries};
ghost use Rattle.steps.specs.Tables.{table_of, Usable};
ghost use Rattle.steps.specs.Readings.{Readable, EntryRead, ProfileRead, ClosedRead};

use closure::{Table, Ticks};
use fullchart::last_on;

// The last events of two stations, if both have one.
fn last_events(events: &[u8], p: u8, q: u8) -> Option<(usize, usize)>
    ensures { MatchOption result (NotBelow events.now p (length events.now) ⊎ NotBelow events.now q (length events.now)) (λ x. LastOn events.now p (Some x.0) × LastOn events.now q (Some x.1)) }
{
    let e = last_on(events, p)?;
    let f = last_on(events, q)?;
    Some((e, f))
}

// The largest value of p's last date minus q's, or 0 where one of them has no event.
fn profile_entry(table: &Table<Ticks>, first: usize, events: &[u8], p: u8, q: u8) -> i16
    requires inside { first + length events.now ≤ table.now.places }
    requires readable { Readable (table_of table.now.places table.now.weights.now) first events.now }
    ensures { EntryRead (table_of table.now.places table.now.weights.now) first events.now p q result }
{
    let Some((e, f)) = last_events(events, p, q) else {
        return 0;
    };
    table.at(first + f, first + e).count().unwrap() as i16
}

// The profile of the stations whose events are listed.
fn read_profile(table: &Table<Ticks>, first: usize, events: &[u8]) -> [i16; 64]
    requires inside { first + length events.now ≤ table.now.places }
    requires readable { Readable (table_of table.now.places table.now.weights.now) first events.now }
    ensures { ProfileRead (table_of table.now.places table.now.weights.now) first events.now result }
{
    let mut profile = [0; 64];
    // (The index taken apart: tried by rows of `as_chunks_mut`, but no proof knows what an array holds after it.)
    for (k, entry) in profile.iter_mut().enumerate() {
        *entry = profile_entry(table, first, events, (k / 8) as u8, (k % 8) as u8);
    }
    profile
}

// Closes the table and reads the profile, unless there is a bad cycle.
// (No method of `Bounds`: tried by value, but a struct of a `&mut` and a ghost field cannot be passed so; and by `&mut` closing leaves their range.)
pub fn closed_profile(table: &mut Table<Ticks>, first: usize, events: &[u8]) -> Option<[i16; 64]>
    requires usable { Usable table.old.places table.old.weights.now }
    requires inside { first + length events.now ≤ table.old.places }
    requires readable { (D : Entries) → ShortestWalks table.old.places (table_of table.old.places table.old.weights.now) D → Readable D first events.now }
    ensures { ClosedRead table.old.places (table_of table.old.places table.old.weights.now) first events.now result }
{
    table.close().ok()?;
    Some(read_profile(table, first, events))
}
