ghost use Rattle.std.specs.Prelude.{◌≡◌, Some};
ghost use Rattle.std.specs.Fmt.{padded};
ghost use Rattle.history.specs.States.{code, word_text};
ghost use Rattle.history.specs.Views.{state_of};

use std::fmt;

/// What a baker is told of an examination.
#[derive(Clone, Copy, PartialEq, Eq, Debug)]
pub enum State {
    /// No book has been taken yet.
    Idle = 0,
    /// Nothing is found so far, and something is left to try.
    Open = 1,
    /// A final path that can be dated is found.
    Runs = 2,
    /// No final path can be dated.
    Empty = 3,
    /// The register was full when a row was to be entered.
    Spent = 4,
}

impl State {
    /// The word for a state.
    pub fn word(self) -> &'static str
        ensures { result.now ≡ word_text self }
    {
        match self {
            State::Idle => "idle",
            State::Open => "open",
            State::Runs => "runs",
            State::Empty => "empty",
            State::Spent => "spent",
        }
    }
}

impl fmt::Display for State {
    ghost output = { λ state. Some (word_text state) };

    ghost styled_output = { λ state spec. Some (padded spec (word_text state)) };

    fn fmt<W: fmt::Write>(&self, f: &mut fmt::Formatter<W>) -> fmt::Result {
        f.pad(self.word())
    }
}

/// The number of a state.
impl From<State> for u8 {
    ghost from_gives = { λ state number. number ≡ code state };

    fn from(state: State) -> u8 {
        state as u8
    }
}

/// Where the walk of an examination stands.
#[derive(Clone, Copy, PartialEq, Eq, Debug)]
pub enum Phase {
    Idle,
    /// The pair that is tried next: the place of a row, and a link from its chart.
    Open(u16, u8),
    /// The place of the final row.
    Runs(u16),
    Empty,
    Spent,
}

/// What a baker is told where the walk stands so.
impl From<Phase> for State {
    ghost from_gives = { λ phase state. state ≡ state_of phase };

    fn from(phase: Phase) -> State {
        match phase {
            Phase::Idle => State::Idle,
            Phase::Open(_, _) => State::Open,
            Phase::Runs(_) => State::Runs,
            Phase::Empty => State::Empty,
            Phase::Spent => State::Spent,
        }
    }
}
