use bookformat::Fault;
use examination::conduct;
use history::{Answer, Call, State, Verdict};
use register::Register;
use std::io;
use walk::{Outcome, Watch};

/// Prints a line for each step of a walk, until printing fails.
// (The trace of a reader is another: it watches another trait, and shares two fields and a test with this one.)
#[derive(Drop)]
pub struct StepTrace<'a> {
    rt: &'a HostRuntime,
    steps: u32,
    printed: io::Result<()>,
}

impl<'a> StepTrace<'a> {
    pub fn new(rt: &'a HostRuntime) -> StepTrace<'a> {
        StepTrace {
            rt,
            steps: 0,
            printed: Ok(()),
        }
    }

    /// Whether every line was printed.
    pub fn finish(self) -> io::Result<()> {
        self.printed
    }
}

impl Watch for StepTrace<'_> {
    fn tried(&mut self, row: u16, link: u8, outcome: Outcome) {
        self.steps = self.steps.saturating_add(1);
        if self.printed.is_ok() {
            self.printed = print_step(self.rt, self.steps, row, link, outcome);
        }
    }
}

fn print_step(rt: &HostRuntime, step: u32, row: u16, link: u8, outcome: Outcome) -> io::Result<()> {
    print!(rt; "step {step} row {row} link {link} ")?;
    match outcome {
        Outcome::Barred => println!(rt; "undatable"),
        Outcome::Known(place) => println!(rt; "known {place}"),
        Outcome::New(place) => println!(rt; "new {place}"),
        Outcome::Full => println!(rt; "full"),
    }
}

/// Carries out the whole walk of a book in a register, and tells the watcher of each step.
///
/// The budget lasts where the capacity times the links of the book is at most 65,535.
pub fn walk_through<R: Register, W: Watch>(
    register: &mut R,
    bytes: &[u8],
    watch: &mut W,
) -> Result<Verdict, Fault> {
    let mut answers = [Answer::Begun(Ok(State::Idle))];
    let mut examination = conduct(register, &[Call::Begin(bytes)], &mut answers, &mut [])?;
    if let Answer::Begun(Err(fault)) = answers[0] {
        return Err(fault);
    }
    let _ = examination.advance_watched(register, u16::MAX, watch)?;
    Ok(examination.verdict(register))
}

pub fn print_verdict(rt: &HostRuntime, verdict: Verdict) -> io::Result<()> {
    match verdict.state {
        State::Runs => println!(rt; "{} {}", State::Runs, verdict.charts),
        state => println!(rt; "{state}"),
    }
}
