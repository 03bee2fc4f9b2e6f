// Any list of calls on a new examination.
ghost use Rattle.std.specs.Prelude.{◌≡◌, ◌≤◌, length};
ghost use Rattle.history.specs.Histories.{space as space_of, Answers};
ghost use Rattle.examination.specs.Views.{view_of};
ghost use Rattle.examination.specs.Conduct.{SpacesIs, RoomChecked, Performed, ConductMeans};

use crate::exam::Examination;
use bookformat::Fault;
use history::{Answer, Call};
use register::Register;

/// How much space for dates a call is lent.
fn space_for(call: Call) -> usize
    ensures { result ≡ space_of call.entry }
{
    match call {
        Call::Dates(space) => space,
        _ => 0,
    }
}

/// How much all calls are lent, unless that is beyond 64 bits.
fn spaces_for(calls: &[Call]) -> Option<usize>
    ensures { SpacesIs calls.now result }
{
    let mut total: usize = 0;
    for call in calls {
        total = total.checked_add(space_for(*call))?;
    }
    Some(total)
}

/// Is there space for so many answers and dates? The fault names the length needed.
fn check_room(calls: &[Call], answers: usize, dates: usize) -> Result<(), Fault>
    ensures { RoomChecked calls.now answers dates result }
{
    if answers < calls.len() {
        return Err(Fault::TooLittleSpace {
            needed: calls.len(),
        });
    }
    match spaces_for(calls) {
        Some(needed) if needed <= dates => Ok(()),
        Some(needed) => Err(Fault::TooLittleSpace { needed }),
        None => Err(Fault::TooLittleSpace { needed: usize::MAX }),
    }
}

/// One call.
// (A `match` on the call: a list of calls is data, which the promise about every list compares.)
fn perform<R: Register>(
    examination: &mut Examination,
    register: &mut R,
    call: Call,
    space: &mut [u32],
) -> Answer
    ensures answers { Answers (R.capacity register.old) (view_of examination.old.book examination.old.phase (R.rows register.old)) call.entry result space.old space.new (view_of examination.new.book examination.new.phase (R.rows register.new)) }
    ensures capacity { R.capacity register.new ≡ R.capacity register.old }
{
    match call {
        Call::Verdict => Answer::Told(examination.verdict(register)),
        Call::Begin(bytes) => Answer::Begun(examination.begin(register, bytes)),
        Call::Advance(budget) => Answer::Advanced(examination.advance(register, budget)),
        Call::Leg(position) => Answer::Shown(examination.leg(register, position)),
        Call::Dates(_) => Answer::Dated(examination.dates(register, space)),
    }
}

/// One call, lent the part of the space from `start` to `end`.
fn perform_within<R: Register>(
    examination: &mut Examination,
    register: &mut R,
    call: Call,
    dates: &mut [u32],
    start: usize,
    end: usize,
) -> Answer
    requires { (start ≤ end) × (end ≤ length dates.old) }
    ensures performed { Performed (R.capacity register.old) (view_of examination.old.book examination.old.phase (R.rows register.old)) call.entry result start end dates.old dates.new (view_of examination.new.book examination.new.phase (R.rows register.new)) }
    ensures capacity { R.capacity register.new ≡ R.capacity register.old }
{
    perform(examination, register, call, &mut dates[start..end])
}

/// Carries out the calls in their order on a new examination, which it hands over.
///
/// The answers go to the front of their space, in the order of the calls. Each call for dates is lent as much of the
/// space for dates as it asks for, from behind what the one before it was lent. Where there is too little space
/// for all answers and dates, nothing is done.
pub fn conduct<R: Register>(
    register: &mut R,
    calls: &[Call],
    answers: &mut [Answer],
    dates: &mut [u32],
) -> Result<Examination, Fault>
    ensures { ConductMeans (R.capacity register.old) calls.now answers.old answers.new dates.old dates.new (R.rows register.old) result (R.rows register.new) }
{
    check_room(calls, answers.len(), dates.len())?;
    let mut examination = Examination::new();
    let mut start = 0;
    for (place, call) in calls.iter().enumerate() {
        let end = start + space_for(*call);
        answers[place] = perform_within(&mut examination, register, *call, dates, start, end);
        start = end;
    }
    Ok(examination)
}
