//! The order of a chart: the closure of directly before.
#![tactic(auto)]

ghost use Rattle.std.specs.Prelude.{◌≡◌, ◌≤◌, length, Decides};
ghost use Rattle.bookformat.specs.Rules.{Acyclic};
ghost use Rattle.bookformat.specs.Reading.{is_directly_before};
ghost use Rattle.closure.specs.Befores.{before_meaning};
ghost use Rattle.closure.specs.Closings.{entry};
ghost use Rattle.chartorder.specs.Orders.{link_of, NoLoop};

use bookformat::{Bounded, Event, Kind};
use closure::{Before, Table};

/// Is event `second` listed later on the station of event `first`, or its receive?
pub fn is_directly_before(events: &[Event], first: usize, second: usize) -> bool
    ensures { result ≡ is_directly_before events.now first second }
{
    if first >= events.len() {
        return false;
    }
    let one = events[first];
    if one.kind == Kind::Send && usize::from(one.pair) == second {
        return true;
    }
    first < second && second < events.len() && one.station == events[second].station
}

/// The weight of the link between two events.
fn link(events: &[Event], first: usize, second: usize) -> Before
    ensures { result ≡ link_of (is_directly_before events.now first second) }
{
    if is_directly_before(events, first, second) {
        Before::Linked
    } else {
        Before::Unlinked
    }
}

/// Is no event linked to itself?
fn has_no_loop(table: &Table<Before>) -> bool
    ensures { Decides result (NoLoop table.now.places (entry before_meaning table.now.places table.now.weights.now)) }
{
    (0..table.places()).all(|event| table.at(event, event) == Before::Unlinked)
}

/// Closes the links between the events, in a part of the storage, and looks for loops.
fn close_in(storage: &mut [Before], events: &[Event]) -> bool
    requires { (length storage.old ≡ 1600) × (length events.now ≤ 40) }
    ensures { Decides result (Acyclic events.now) }
{
    let mut table = Table::within(storage, events.len());
    table.fill(|first, second| link(events, first, second));
    table.close().is_ok() && has_no_loop(&table)
}

/// Does no event of a chart come before itself?
pub fn is_acyclic(events: &Bounded<Event, 40>) -> bool
    ensures { Decides result (Acyclic events.now.items) }
{
    let mut storage = [Before::Unlinked; 1600];
    close_in(&mut storage, events)
}
