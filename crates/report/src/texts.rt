// Texts that are written whole or not at all.
ghost use Rattle.std.specs.Prelude.{ℕ, ◌^◌, ◌<◌, ◌≤◌, List, length};
ghost use Rattle.report.specs.Texts.{Writes};

use crate::sinks::{Length, Sink, Space};
use bookformat::Fault;

/// A text that can be put into any sink with room for it.
pub trait Text {
    ghost text: { Self → List ℕ };

    fn put<S: Sink>(&self, sink: &mut S)
        requires { length (text self.now) ≤ S.room sink.old }
        ensures { S.Took sink.old (text self.now) sink.new };
}

/// Writes a text to the front of a space, or nothing where there is too little space; answers how many bytes.
pub fn write<T: Text>(text: &T, space: &mut [u8]) -> Result<usize, Fault>
    requires { length (T.text text.now) < 2 ^ 64 }
    ensures { Writes (T.text text.now) space.old space.new result }
{
    let mut length = Length { bytes: 0 };
    text.put(&mut length);
    let needed = length.bytes;
    if space.len() < needed {
        return Err(Fault::TooLittleSpace { needed });
    }
    text.put(&mut Space {
        bytes: space,
        at: 0,
    });
    Ok(needed)
}
