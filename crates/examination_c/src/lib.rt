#![tactic(auto)]

// Examinations in one call each, for C and Rust to call: the benchmark.
ghost use Rattle.std.specs.Prelude.{◌≡◌, ◌≤◌, length};
ghost use Rattle.examination_c.specs.Walked.{WalkMeans, packed as packed_as, Told};

use bookformat::Fault;
use examination::Examination;
use register::Register;
use remainder::RemainderRegister;
use scanned::ScannedRegister;
use std::alloc::Global;

// Takes a book and makes steps within the budget. Answers how many, and the number of the state.
fn walk<R: Register>(
    examination: &mut Examination,
    register: &mut R,
    bytes: &[u8],
    budget: u16,
) -> Result<(u16, u8), Fault>
    ensures { WalkMeans (R.capacity register.old) bytes.now budget result }
{
    let _ = examination.begin(register, bytes)?;
    examination.advance(register, budget)
}

// The number of the state, then 16 bits for the steps. No steps and idle where the book was refused.
// (One number, since C is handed no Result; and an exported function for each register, since it has no type parameter.)
fn packed(walked: Result<(u16, u8), Fault>) -> u32
    ensures { result ≡ packed_as walked }
{
    walked.map_or(0, |(steps, state)| {
        u32::from(state) * 65_536 + u32::from(steps)
    })
}

// A walk in a register that is let go.
fn walk_in<R: Register + Drop>(mut register: R, bytes: &[u8], budget: u16) -> u32
    ensures { Told (R.capacity register) bytes.now budget result }
{
    let mut examination = Examination::new();
    packed(walk(&mut examination, &mut register, bytes, budget))
}

/// Walks through a book with so many rows and within a budget: the state's number, then 16 bits for the steps. All is 0
/// where the book is refused or there is no register.
#[unsafe(no_mangle)]
pub extern "C" fn examination_walk_scanned(
    heap: Global,
    bytes: &[u8],
    rows: u16,
    budget: u16,
) -> u32
    ensures { Told rows bytes.now budget result }
{
    ScannedRegister::new(heap, rows).map_or(0, |register| walk_in(register, bytes, budget))
}

/// The same with rows that are found by the remainder of a sum.
#[unsafe(no_mangle)]
pub extern "C" fn examination_walk_remainder(
    heap: Global,
    bytes: &[u8],
    rows: u16,
    budget: u16,
) -> u32
    ensures { Told rows bytes.now budget result }
{
    RemainderRegister::new(heap, rows).map_or(0, |register| walk_in(register, bytes, budget))
}

// Asks for the dates so many times, and answers how many they are.
fn date_often<R: Register>(
    examination: &Examination,
    register: &R,
    times: u16,
    space: &mut [u32],
) -> usize
    ensures { result ≤ length space.old }
{
    let mut count = 0;
    // (So many times, none of which needs its number.)
    for _ in 0..times {
        count = examination.dates(register, space).unwrap_or(0);
    }
    count
}

/// Walks so, then asks for the dates so many times: how many the last time gave, or 0 where it gave none.
#[unsafe(no_mangle)]
pub extern "C" fn examination_dates(
    heap: Global,
    bytes: &[u8],
    rows: u16,
    budget: u16,
    times: u16,
    space: &mut [u32],
) -> usize
    ensures { result ≤ length space.old }
{
    let Ok(mut register) = RemainderRegister::new(heap, rows) else {
        return 0;
    };
    let mut examination = Examination::new();
    let _ = walk(&mut examination, &mut register, bytes, budget);
    date_often(&examination, &register, times, space)
}
