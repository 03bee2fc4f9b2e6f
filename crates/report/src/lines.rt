// The first line of a report.
ghost use Rattle.std.specs.Prelude.{◌≤◌, length};
ghost use Rattle.history.specs.States.{word_text};
ghost use Rattle.report.specs.Reports.{state_line, runs_line};

use crate::numbers::put_spaced;
use crate::sinks::Sink;
use crate::texts::Text;
use history::State;

/// Puts the word for a state.
fn put_word<S: Sink>(sink: &mut S, state: State)
    requires { length (word_text state) ≤ S.room sink.old }
    ensures { S.Took sink.old (word_text state) sink.new }
{
    sink.put(state.word().as_bytes());
}

/// The line of a state that shows no path.
#[derive(Clone, Copy)]
pub struct StateLine(pub State);

impl Text for StateLine {
    ghost text = { λ line. state_line line.0 };

    fn put<S: Sink>(&self, sink: &mut S) {
        put_word(sink, self.0);
        sink.put(b"\n");
    }
}

/// Puts the first line of a path's report: how many charts the path has.
pub fn put_runs<S: Sink>(sink: &mut S, charts: usize)
    requires { length (runs_line charts) ≤ S.room sink.old }
    ensures { S.Took sink.old (runs_line charts) sink.new }
{
    put_word(sink, State::Runs);
    put_spaced(sink, charts as u64);
    sink.put(b"\n");
}
