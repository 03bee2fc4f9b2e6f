// The report of an examination.
ghost use Rattle.examination.specs.Views.{view_of};
ghost use Rattle.report.specs.Means.{ReportMeans};

use crate::found::report_links;
use crate::lines::StateLine;
use crate::texts::write;
use bookformat::Fault;
use examination::{Examination, State};
use register::Register;

/// Writes the state of an examination as text and, if it runs, a line for each chart of the path with its earliest
/// dates. Answers how many bytes those are. The dates go to the working space.
pub fn report<R: Register>(
    examination: &Examination,
    register: &R,
    work: &mut [u32],
    text: &mut [u8],
) -> Result<usize, Fault>
    ensures { ReportMeans (view_of examination.now.book examination.now.phase (R.rows register.now)) work.old text.old result work.new text.new }
{
    match examination.verdict(register).state {
        State::Idle => Err(Fault::Idle),
        State::Runs => {
            let links = examination.route(register)?;
            report_links(examination.book(), &links, work, text)
        }
        state => write(&StateLine(state), text),
    }
}
