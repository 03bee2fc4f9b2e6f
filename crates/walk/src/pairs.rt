// The pairs of a row and a link from its chart, in their order.
ghost use Rattle.std.specs.Prelude.{◌≡◌, ◌≤◌, length, Decides};
ghost use Rattle.bookformat.specs.Rules.{chart as chart_numbered};
ghost use Rattle.bookformat.specs.Books.{book_value};
ghost use Rattle.register.specs.Meaning.{row_at};
ghost use Rattle.search.specs.Places.{Found};
ghost use Rattle.classes.specs.Ranged.{ranged};
ghost use Rattle.history.specs.Views.{phase_of, rows_of};
ghost use Rattle.walk.specs.Trying.{Alike, FirstFrom};

use bookformat::{Book, Link};
use history::Phase;
use register::{Class, Profile, Register, Row};

/// The row at a place, or one of chart 0 with entries of 0 where there is none.
pub fn row_at<R: Register>(register: &R, place: u16) -> Row
    ensures alike { Alike result.class (row_at (R.rows register.now) place).class }
    ensures origin { result.origin ≡ (row_at (R.rows register.now) place).origin }
{
    let mut row = Row {
        class: Class {
            chart: 0,
            profile: Profile { entries: [0; 64] },
        },
        origin: None,
    };
    let _ = register.read(place, &mut row);
    row
}

/// Is the chart with a number marked final?
pub fn is_final(book: &Book, number: u8) -> bool
    ensures { result ≡ (chart_numbered (book_value book.now) number).final }
{
    book.charts
        .get(usize::from(number))
        .is_some_and(|chart| chart.is_final)
}

/// Does the link begin at a chart?
fn begins_at(link: &Link, chart: u8) -> bool
    ensures { Decides result (link.now.from ≡ chart) }
{
    link.from == chart
}

/// The first link, from the one with the number `start` on, that begins at a chart.
fn link_from(book: &Book, chart: u8, start: usize) -> Option<u8>
    ensures { FirstFrom (book_value book.now) chart start result }
{
    let links = book.links.get(start..)?;
    let ahead = links.iter().position(|link| begins_at(link, chart))?;
    Some((start + ahead) as u8)
}

/// Open at the first pair from a row and a link on, or empty if there is none.
pub fn next_pair<R: Register>(book: &Book, register: &R, place: u16, link: usize) -> Phase
    ensures { Found (ranged (book_value book.now)) (rows_of (book_value book.now) (R.rows register.now)) place link (phase_of result) }
{
    let mut start = link;
    // (The places of rows: a register hands out rows by their place alone.)
    for at in place..register.count() {
        if let Some(number) = link_from(book, row_at(register, at).class.chart, start) {
            return Phase::Open(at, number);
        }
        start = 0;
    }
    Phase::Empty
}
