// How the walk begins, and one step of it.
ghost use Rattle.std.specs.Prelude.{◌≡◌, ◌+◌, ◌<◌, ◌≤◌, length, Decides};
ghost use Rattle.bookformat.specs.Rules.{chart as chart_numbered, GoodBook};
ghost use Rattle.bookformat.specs.Books.{book_value};
ghost use Rattle.profile.specs.Ranges.{InRange};
ghost use Rattle.register.specs.Meaning.{row_at};
ghost use Rattle.search.specs.Places.{Found};
ghost use Rattle.classes.specs.Ranged.{ranged};
ghost use Rattle.history.specs.Views.{phase_of, rows_of};
ghost use Rattle.walk.specs.Trying.{outcome_by, LedTo, Starts, Tried, Follows, Stepped, Started};

use crate::outcome::Outcome;
use crate::pairs::{is_final, next_pair, row_at};
use crate::watch::Watch;
use bookformat::Book;
use history::Phase;
use register::{Class, Entered, Origin, Profile, Register, Row};
use routes::next_link;
use steps::{first_profile, step_profile};

/// The class of a chart and the entries of a profile.
fn class_with(chart: u8, entries: [i16; 64]) -> Class
    ensures is { result ≡ record { chart = chart; profile = record { entries = entries } } }
    ensures sized { length entries ≡ 64 }
{
    Class {
        chart,
        profile: Profile { entries },
    }
}

/// The class of the first chart alone, if it can be dated.
fn first_class(book: &Book) -> Option<Class>
    ensures { Starts (book_value book.now) result }
{
    let entries = first_profile(book)?;
    Some(class_with(book.first, entries))
}

/// Is each entry so near to 0 that a step can be made from it?
fn is_in_range(entries: &[i16; 64]) -> bool
    ensures { Decides result (InRange entries.now) }
{
    entries
        .iter()
        .all(|entry| (-10_000..=10_000).contains(entry))
}

/// The class to which a link leads from a class, if a path goes on so.
fn lead(book: &Book, from: &Class, link: u8) -> Option<Class>
    ensures { LedTo (book_value book.now) from.now link result }
{
    let number = usize::from(link);
    let taken = next_link(book, from.chart, number)?;
    // (Nothing else is known of the entries of a row that the walk did not enter.)
    if !is_in_range(&from.profile.entries) {
        return None;
    }
    let entries = step_profile(book, &from.profile.entries, number)?;
    Some(class_with(taken.to, entries))
}

/// Enters what the link leads to from the row at a place.
fn try_pair<R: Register>(book: &Book, register: &mut R, place: u16, link: u8) -> Outcome
    ensures tried { Tried (book_value book.now) (R.capacity register.old) (R.rows register.old) place link result (R.rows register.new) }
    ensures capacity { R.capacity register.new ≡ R.capacity register.old }
{
    let from = row_at(register, place);
    let Some(class) = lead(book, &from.class, link) else {
        return Outcome::Barred;
    };
    let row = Row {
        class,
        origin: Some(Origin { row: place, link }),
    };
    Outcome::from(register.enter(&row))
}

/// Is the chart of the row at a place marked final?
fn is_final_row<R: Register>(book: &Book, register: &R, place: u16) -> bool
    ensures { result ≡ (chart_numbered (book_value book.now) (row_at (R.rows register.now) place).class.chart).final }
{
    is_final(book, row_at(register, place).class.chart)
}

/// Open at the first pair behind that of a row and a link, or empty if there is none.
fn pair_behind<R: Register>(book: &Book, register: &R, place: u16, link: u8) -> Phase
    ensures { Found (ranged (book_value book.now)) (rows_of (book_value book.now) (R.rows register.now)) place (link + 1) (phase_of result) }
{
    next_pair(book, register, place, usize::from(link) + 1)
}

/// Where the walk stands after the pair of a row and a link was tried.
fn phase_after<R: Register>(
    book: &Book,
    register: &R,
    place: u16,
    link: u8,
    outcome: Outcome,
) -> Phase
    ensures { Follows (book_value book.now) (R.rows register.now) place link outcome result }
{
    match outcome {
        Outcome::Full => Phase::Spent,
        Outcome::New(at) => {
            if is_final_row(book, register, at) {
                Phase::Runs(at)
            } else {
                pair_behind(book, register, place, link)
            }
        }
        Outcome::Barred | Outcome::Known(_) => pair_behind(book, register, place, link),
    }
}

/// One step: tries the pair, tells the watcher, and says where the walk then stands.
pub fn step<R: Register, W: Watch>(
    book: &Book,
    register: &mut R,
    place: u16,
    link: u8,
    watch: &mut W,
) -> Phase
    ensures stepped { Stepped (book_value book.now) (R.capacity register.old) (R.rows register.old) place link (R.rows register.new) result }
    ensures capacity { R.capacity register.new ≡ R.capacity register.old }
{
    let outcome = try_pair(book, register, place, link);
    watch.tried(place, link, outcome);
    phase_after(book, register, place, link, outcome)
}

/// Open at the first pair of all, or empty if there is none.
fn first_pair<R: Register>(book: &Book, register: &R) -> Phase
    ensures { Found (ranged (book_value book.now)) (rows_of (book_value book.now) (R.rows register.now)) 0 0 (phase_of result) }
{
    next_pair(book, register, 0, 0)
}

/// Clears the register and begins the walk with the first chart.
pub fn begin_walk<R: Register>(book: &Book, register: &mut R) -> Phase
    requires { 0 < R.capacity register.old }
    ensures started { Started (book_value book.now) (R.rows register.new) result }
    ensures capacity { R.capacity register.new ≡ R.capacity register.old }
{
    register.clear();
    let Some(class) = first_class(book) else {
        return Phase::Empty;
    };
    let _ = register.enter(&Row {
        class,
        origin: None,
    });
    if is_final(book, class.chart) {
        return Phase::Runs(0);
    }
    first_pair(book, register)
}
