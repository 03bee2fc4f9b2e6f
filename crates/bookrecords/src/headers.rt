ghost use Rattle.std.specs.Prelude.{◌≡◌, ◌++◌};
ghost use Rattle.bookformat.specs.Laws.{Octets};
ghost use Rattle.bookformat.specs.Reading.{mark_tests, header_tests};
ghost use Rattle.bookrecords.specs.Answers.{Tested};
ghost use Rattle.bookrecords.specs.Headers.{header_at};

use crate::fields::Header;
use crate::records::{RecordBytes, Watch, sized_record};
use bookformat::Fault;

/// Tests the three letters and the version at the front of the book.
fn check_mark(book: &[u8]) -> Result<(), Fault>
    ensures { Tested result (mark_tests book.now) (λ _. Octets book.now) }
{
    match book {
        [b'T', b'C', b'M', 0, 1, ..] => Ok(()),
        [b'T', b'C', b'M', _, _, ..] => Err(Fault::WrongVersion),
        [_, _, _, _, _, ..] => Err(Fault::WrongMark),
        _ => Err(Fault::RecordCut { place: 0 }),
    }
}

/// The rest of the header.
fn read_rest<W: Watch>(book: &[u8], watch: &mut W) -> Result<Header, Fault>
    ensures { Tested result (header_tests book.now) (λ h. h ≡ header_at book.now) }
{
    let part = sized_record(book, 5)?;
    watch.record(RecordBytes::Header(part), 0, 5);
    let [
        stations,
        charts,
        first,
        links,
        near_high,
        near_low,
        far_high,
        far_low,
    ] = *part;
    Header {
        stations,
        charts: usize::from(charts),
        first,
        links: usize::from(links),
        near: u16::from_be_bytes([near_high, near_low]),
        far: u16::from_be_bytes([far_high, far_low]),
    }
    .tested()
}

pub fn read_header<W: Watch>(book: &[u8], watch: &mut W) -> Result<Header, Fault>
    ensures { Tested result (mark_tests book.now ++ header_tests book.now) (λ h. (h ≡ header_at book.now) × Octets book.now) }
{
    watch.record(RecordBytes::Mark(sized_record(book, 0)?), 0, 0);
    check_mark(book)?;
    read_rest(book, watch)
}
