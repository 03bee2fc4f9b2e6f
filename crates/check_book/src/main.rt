//! Reads a chart book from standard input, looks for a final path that can be dated, and writes the report; or, of a book that
//! is refused, the notice.
#![tactic(auto)]

use anyhow::anyhow;
use bookformat::{Fault, LONGEST};
use examination::{Answer, Call, State, Verdict, conduct};
use register::Register;
use report::{notice, report};
use scanned::ScannedRegister;
use std::io::{Read, Write};

const ROWS: u16 = 64;

/// More steps than 64 rows and 128 links have pairs, so that the examination is not open after them.
const BUDGET: u16 = 65_535;

/// Dates of 64 charts of 48 events, and their text.
const MOST_DATES: usize = 3_072;

const MOST_TEXT: usize = 40_000;

/// Examines the book and writes what is to be told of it; answers how many bytes.
fn tell<R: Register>(
    register: &mut R,
    bytes: &[u8],
    work: &mut [u32],
    text: &mut [u8],
) -> Result<usize, Fault> {
    let calls = [Call::Begin(bytes), Call::Advance(BUDGET)];
    let unanswered = Answer::Told(Verdict {
        state: State::Idle,
        charts: 0,
    });
    let mut answers = [unanswered; 2];
    let examination = conduct(register, &calls, &mut answers, &mut [])?;
    match answers[0] {
        Answer::Begun(Err(fault)) => Err(fault),
        _ => report(&examination, register, work, text),
    }
}

fn main(rt: HostRuntime) -> anyhow::Result<()> {
    let heap = rt.alloc();
    let mut bytes = Vec::new(heap);
    // One byte more than the longest book has shows that there are too many. (Each program reads for itself:
    // of what standard input gives no contract can speak, so a function shared by them would promise nothing.)
    rt.stdin().take(LONGEST as u64 + 1).read_to_end(&mut bytes)?;
    let mut work = vec![in heap; 0u32; MOST_DATES]?;
    let mut text = vec![in heap; 0u8; MOST_TEXT]?;
    let Ok(mut register) = ScannedRegister::new(heap, ROWS) else {
        return Err(anyhow!("no memory for the register"));
    };
    let length = match tell(&mut register, &bytes, &mut work, &mut text) {
        Ok(length) => length,
        Err(fault) => notice(fault, &mut text).unwrap_or(0),
    };
    rt.stdout().write_all(&text[..length.min(text.len())])?;
    Ok(())
}
