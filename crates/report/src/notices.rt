ghost use Rattle.std.specs.Prelude.{◌≤◌, length};
ghost use Rattle.report.specs.Texts.{Writes, number_text, refusal_text, notice_text};

use crate::numbers::put_number;
use crate::sinks::Sink;
use crate::texts::{Text, write};
use bookformat::{Fault, Refusal};

/// Puts a number and a byte behind it.
fn put_ended<S: Sink>(sink: &mut S, n: u64, ending: u8)
    requires { length (number_text n ending) ≤ S.room sink.old }
    ensures { S.Took sink.old (number_text n ending) sink.new }
{
    put_number(sink, n);
    sink.put(&[ending]);
}

/// The numbers of a fault, as a line of text.
impl Text for Refusal {
    ghost text = { refusal_text };

    fn put<S: Sink>(&self, sink: &mut S) {
        sink.put(b"refused ");
        put_ended(sink, u64::from(self.number), b' ');
        put_ended(sink, u64::from(self.layer), b' ');
        put_ended(sink, self.place as u64, b'\n');
    }
}

/// Writes a fault as a line of text, `refused` with its number, layer and place; answers how many bytes.
pub fn notice(fault: Fault, space: &mut [u8]) -> Result<usize, Fault>
    ensures { Writes (notice_text fault) space.old space.new result }
{
    write(&Refusal::from(fault), space)
}
