ghost use Rattle.std.specs.Prelude.{◌≡◌, IfOk};
ghost use Rattle.bookformat.specs.Books.{book_value};
ghost use Rattle.judge.specs.Walking.{PathChecked};

use bookformat::{ArrayVec, Book, Fault};
use routes::{MOST_LINKS, next_link};

/// The numbers of the links, or the position of the first that does not lead a path on, or is one too many.
pub fn parse_path(book: &Book, links: &[u16]) -> Result<ArrayVec<u8, MOST_LINKS>, Fault>
    ensures checked { PathChecked (book_value book.now) links.now result }
    ensures numbers { IfOk result (λ n. n.items ≡ links.now) }
{
    let mut numbers = ArrayVec::new();
    let mut at = book.first;
    for (position, number) in links.iter().enumerate() {
        let refused = Fault::BadLinkNumber { position };
        if numbers.is_full() {
            return Err(refused);
        }
        let Some(link) = next_link(book, at, usize::from(*number)) else {
            return Err(refused);
        };
        numbers.push(*number as u8);
        at = link.to;
    }
    Ok(numbers)
}
