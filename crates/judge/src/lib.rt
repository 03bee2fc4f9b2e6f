//! Judges written dates: are they a dating of a path through a chart book?
#![tactic(auto)]

ghost use Rattle.bookformat.specs.Books.{book_value};
ghost use Rattle.judge.specs.Judging.{Judged, Judges};

use bookformat::{Book, Fault};
use chartbook::read_book;
use dated::DatedPath;
use path::parse_path;
use routes::BookPath;

mod dated;
mod judgement;
mod path;

pub use judgement::Judgement;

/// Judges dates of a path.
fn judge_path(path: &BookPath, dates: &[u32]) -> Result<Judgement, Fault>
    ensures { Judged (book_value path.now.book.now) path.now.links.now dates.now result }
{
    let dated = DatedPath::of(path, dates)?;
    Ok(dated.judge())
}

/// Judges dates of links through a book that is read.
fn judge_in(book: &Book, links: &[u16], dates: &[u32]) -> Result<Judgement, Fault>
    ensures { Judged (book_value book.now) links.now dates.now result }
{
    let numbers = parse_path(book, links)?;
    judge_path(&BookPath::new(book, &numbers), dates)
}

/// Are the dates a dating of the path through the book that the bytes say, and if not, where do they
/// first break a rule?
///
/// `links` are the link numbers of the path; `dates` go position after position, and within a
/// position by event number.
pub fn judge(bytes: &[u8], links: &[u16], dates: &[u32]) -> Result<Judgement, Fault>
    ensures { Judges bytes.now links.now dates.now result }
{
    let book = read_book(bytes)?;
    judge_in(&book, links, dates)
}
