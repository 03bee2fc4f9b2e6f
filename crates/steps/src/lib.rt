//! One step of a path: the profile of the first chart alone, and the profile after a link.
//!
//! A profile is an array: the largest value of station p's last date minus that of station q
//! stands at 8 p + q, and 0 for stations that are not used.
#![tactic(auto)]

ghost use Rattle.std.specs.Prelude.{◌≡◌, ◌<◌, length};
ghost use Rattle.bookformat.specs.Rules.{chart};
ghost use Rattle.bookformat.specs.Books.{book_value};
ghost use Rattle.paths.specs.Paths.{link as link_numbered};
ghost use Rattle.profile.specs.Ranges.{InRange};
ghost use Rattle.steps.specs.Answers.{ChartAnswer, StepAnswer};
ghost use Rattle.steps.specs.Parts.{entries_of};

use bookformat::Book;
use closure::Ticks;

mod bounds;
mod fills;
mod given;
mod parts;
mod profiles;

use bounds::MOST_ENTRIES;
use fills::{chart_profile, entered_profile};
use given::GivenProfile;

/// The profile of the book's first chart alone, or none where it has no dating.
pub fn first_profile(book: &Book) -> Option<[i16; 64]>
    ensures { ChartAnswer (book_value book.now) (chart (book_value book.now) book.now.first) result }
{
    let mut storage = [Ticks::NONE; MOST_ENTRIES];
    chart_profile(&mut storage, book, usize::from(book.first))
}

/// From last dates of the stations that keep the profile `from`, over a link, into the chart that
/// it enters: the profile after the step, or none where the step has no solution.
pub fn step_profile(book: &Book, from: &[i16; 64], link: usize) -> Option<[i16; 64]>
    requires range { InRange from.now }
    requires exists { link < length (book_value book.now).links }
    ensures { StepAnswer (book_value book.now) (link_numbered (book_value book.now) link) (entries_of from.now) result }
{
    let mut storage = [Ticks::NONE; MOST_ENTRIES];
    let from = GivenProfile { entries: from };
    entered_profile(&mut storage, book, &from, link)
}
