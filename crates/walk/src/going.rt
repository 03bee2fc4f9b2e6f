// Many steps of the walk.
ghost use Rattle.std.specs.Prelude.{◌≡◌};
ghost use Rattle.bookformat.specs.Rules.{GoodBook};
ghost use Rattle.bookformat.specs.Books.{book_value};
ghost use Rattle.history.specs.Views.{phase_of};
ghost use Rattle.walk.specs.Trying.{NextExists, Gone};

use crate::stepping::step;
use crate::watch::Watch;
use bookformat::Book;
use history::Phase;
use register::Register;

/// Makes steps while the walk is open and within the budget. Answers how many, and where it then stands.
pub fn go_on<R: Register, W: Watch>(
    book: &Book,
    register: &mut R,
    phase: Phase,
    budget: u16,
    watch: &mut W,
) -> (u16, Phase)
    requires { NextExists (book_value book.now) (phase_of phase) }
    ensures gone { Gone (book_value book.now) (R.capacity register.old) (R.rows register.old) phase budget result.0 (R.rows register.new) result.1 }
    ensures capacity { R.capacity register.new ≡ R.capacity register.old }
{
    let mut at = phase;
    // (By the number of steps, which is answered.)
    for steps in 0..budget {
        let Phase::Open(place, link) = at else {
            return (steps, at);
        };
        at = step(book, register, place, link, watch);
    }
    (budget, at)
}
