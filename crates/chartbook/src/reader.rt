ghost use Rattle.std.specs.Prelude.{◌≡◌};
ghost use Rattle.bookformat.specs.Books.{book_value};
ghost use Rattle.bookformat.specs.Layout.{book_at};
ghost use Rattle.bookformat.specs.Laws.{Octets};
ghost use Rattle.bookformat.specs.Reading.{reading};
ghost use Rattle.bookrecords.specs.Answers.{Tested};
ghost use Rattle.chartbook.specs.Reads.{Reads};

use crate::charts::read_charts;
use crate::links::Front;
use bookformat::{Book, Fault};
use bookrecords::{LINK_SIZE, Unwatched, Watch, check_end, read_bounded, read_header};

/// Every record in reading order, each tested as it is read.
fn read_records<W: Watch>(book: &[u8], watch: &mut W) -> Result<Book, Fault>
    ensures { Tested result (reading book.now) (λ v. (book_value v ≡ book_at book.now) × Octets book.now) }
{
    let header = read_header(book, watch)?;
    let (charts, place) = read_charts(book, header.charts, header.stations, watch)?;
    let front = Front { header, charts };
    let links = read_bounded(book, place, header.links, &front, watch)?;
    check_end(book.len(), place + LINK_SIZE * header.links)?;
    Ok(Book {
        stations: header.stations,
        first: header.first,
        near: header.near,
        far: header.far,
        charts: front.charts,
        links,
    })
}

/// The book that the bytes say, or the first fault in reading order; the watcher is told of each record.
pub fn read_watched<W: Watch>(book: &[u8], watch: &mut W) -> Result<Book, Fault>
    ensures { Reads book.now result }
{
    read_records(book, watch)
}

/// The book that the bytes say, or the first fault in reading order.
pub fn read_book(book: &[u8]) -> Result<Book, Fault>
    ensures { Reads book.now result }
{
    read_watched(book, &mut Unwatched)
}
