ghost use Rattle.std.specs.Prelude.{◌≡◌};
ghost use Rattle.bookrecords.specs.Records.{Handed, Told};

use bookformat::Fault;

/// How many bytes a chart's head has.
pub const HEAD_SIZE: usize = 3;

/// How many bytes an event has.
pub const EVENT_SIZE: usize = 3;

/// How many bytes a constraint has.
pub const CONSTRAINT_SIZE: usize = 6;

/// How many bytes a link has.
pub const LINK_SIZE: usize = 34;

/// A record of a book, by its bytes.
#[derive(Clone, Copy)]
pub enum RecordBytes<'a> {
    Mark(&'a [u8; 5]),
    Header(&'a [u8; 8]),
    ChartHead(&'a [u8; HEAD_SIZE]),
    Event(&'a [u8; EVENT_SIZE]),
    Constraint(&'a [u8; CONSTRAINT_SIZE]),
    Link(&'a [u8; LINK_SIZE]),
}

/// Is told what the reader of a book meets.
// (The book and its watcher go side by side: a struct of both would say in each contract that its book stays.)
pub trait Watch {
    /// A record, as soon as it lies wholly in the book, before its fields are tested. `number` counts
    /// charts and links in their book, events and constraints in their chart.
    fn record(&mut self, record: RecordBytes<'_>, number: usize, place: usize);

    /// Whether no event of the chart comes before itself.
    fn order(&mut self, chart: usize, is_sound: bool);
}

/// Watches nothing.
#[derive(Clone, Copy)]
pub struct Unwatched;

impl Watch for Unwatched {
    fn record(&mut self, _record: RecordBytes<'_>, _number: usize, _place: usize) {}

    fn order(&mut self, _chart: usize, _is_sound: bool) {}
}

/// The `len` bytes at `place` as a part of the book, where they lie wholly in it.
pub fn record(book: &[u8], place: usize, len: usize) -> Result<&[u8], Fault>
    ensures { Handed book.now place len result }
{
    let size = book.len();
    if place > size || len > size - place {
        return Err(Fault::RecordCut { place });
    }
    Ok(&book[place..place + len])
}

/// The record of `N` bytes at a place, where it lies wholly in the book.
pub fn sized_record<const N: usize>(book: &[u8], place: usize) -> Result<&[u8; N], Fault>
    ensures { Told book.now place N result }
{
    Ok(record(book, place, N)?.as_array().unwrap())
}
