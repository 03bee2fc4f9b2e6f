//! Closing at ticks, for C and Rust to call.
#![tactic(auto)]

ghost use Rattle.closure_c.specs.Codes.{Coded};

use closure::{Ticks, Unclosed, close};

/// Closes a table of ticks: 0 closed, 1 bad cycle, 2 wrong size, 3 out of range.
#[unsafe(no_mangle)]
pub extern "C" fn closure_close_ticks(table: &mut [Ticks], places: usize) -> u8
    ensures { Coded places table.old table.new result }
{
    match close(table, places) {
        Ok(()) => 0,
        Err(Unclosed::BadCycle(_)) => 1,
        Err(Unclosed::WrongSize) => 2,
        Err(Unclosed::OutOfRange(_)) => 3,
    }
}
