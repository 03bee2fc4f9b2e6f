//! Prints each step of a chart book's examination and its verdict, or the notice of the book's first fault.
#![tactic(auto)]

mod walking;

use anyhow::anyhow;
use bookformat::{LONGEST, Refusal};
use scanned::ScannedRegister;
use std::io::Read;
use walking::{StepTrace, print_verdict, walk_through};

/// How many rows are set aside for the walk. A book has at most 128 links, so that it ends within 8,192 steps.
const ROWS: u16 = 64;

fn print_walk(rt: &HostRuntime, bytes: &[u8]) -> anyhow::Result<()> {
    let Ok(mut register) = ScannedRegister::new(rt.alloc(), ROWS) else {
        return Err(anyhow!("no memory for the rows"));
    };
    let mut trace = StepTrace::new(rt);
    let walked = walk_through(&mut register, bytes, &mut trace);
    trace.finish()?;
    match walked {
        Ok(verdict) => print_verdict(rt, verdict)?,
        Err(fault) => println!(rt; "{}", Refusal::from(fault))?,
    }
    Ok(())
}

fn main(rt: HostRuntime) -> anyhow::Result<()> {
    let mut bytes = Vec::new(rt.alloc());
    // One byte more than the longest book has shows that there are too many. (Each program reads for itself:
    // of what standard input gives no contract can speak, so a function shared by them would promise nothing.)
    rt.stdin().take(LONGEST as u64 + 1).read_to_end(&mut bytes)?;
    print_walk(&rt, bytes.as_slice())
}
