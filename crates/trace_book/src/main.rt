//! Prints each record of a chart book as it is read, then `taken` or the notice of the first fault.
#![tactic(auto)]

mod lines;

use bookformat::{LONGEST, Refusal};
use chartbook::read_watched;
use lines::Trace;
use std::io::Read;

fn main(rt: HostRuntime) -> anyhow::Result<()> {
    let mut bytes = Vec::new(rt.alloc());
    // One byte more than the longest book has shows that there are too many. (Each program reads for itself:
    // of what standard input gives no contract can speak, so a function shared by them would promise nothing.)
    rt.stdin().take(LONGEST as u64 + 1).read_to_end(&mut bytes)?;
    let mut trace = Trace::new(&rt);
    match read_watched(bytes.as_slice(), &mut trace) {
        Ok(_) => println!(rt; "taken")?,
        Err(fault) => println!(rt; "{}", Refusal::from(fault))?,
    }
    trace.finish()?;
    Ok(())
}
