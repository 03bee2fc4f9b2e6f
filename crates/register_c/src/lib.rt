#![tactic(auto)]

// Both registers behind C functions, for the benchmark.

ghost use Rattle.std.specs.Prelude.{◌≡◌, ◌+◌, ◌≤◌, length};

use register::{Class, Entered, MOST_ROWS, Origin, Profile, Register, Row, Unmade};
use remainder::RemainderRegister;
use scanned::ScannedRegister;
use std::alloc::Global;

// A row as a walk might enter it: two stations that drift apart.
fn row(number: u16) -> Row {
    let drift = (number % 8192) as i16;
    let mut entries = [0i16; 64];
    entries[1] = drift;
    entries[8] = -drift;
    Row {
        class: Class {
            chart: 1,
            profile: Profile { entries },
        },
        origin: Some(Origin {
            row: number,
            link: 0,
        }),
    }
}

// Enters as many rows in turn, and answers how many of them were new.
fn enter_all<R: Register>(register: &mut R, count: u16) -> u16
    ensures grows { length (R.rows register.new) ≡ length (R.rows register.old) + result }
    ensures few { result ≤ count }
{
    let mut new = 0u16;
    // (A loop: tried as a `fold`, after which nothing is known of the register that its closure changed.)
    for number in 0..count {
        if matches!(register.enter(&row(number)), Entered::New(_)) {
            new += 1;
        }
    }
    new
}

// A register that could not be made takes no row.
fn enter_made<R: Register + Drop>(made: Result<R, Unmade>, count: u16) -> u16
    ensures { result ≤ count }
{
    made.map_or(0, |mut register| enter_all(&mut register, count))
}

// (An exported function for each register, since it has no type parameter.)
#[unsafe(no_mangle)]
pub extern "C" fn register_enter_scanned(heap: Global, count: u16) -> u16
    ensures { result ≤ count }
{
    enter_made(ScannedRegister::new(heap, MOST_ROWS), count)
}

#[unsafe(no_mangle)]
pub extern "C" fn register_enter_remainder(heap: Global, count: u16) -> u16
    ensures { result ≤ count }
{
    enter_made(RemainderRegister::new(heap, MOST_ROWS), count)
}
