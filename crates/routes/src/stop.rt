use bookformat::Book;
use fullchart::FullChart;

/// A chart on a path: its number, its full chart, and the place of its first date among those of the path.
#[derive(Clone, Copy)]
pub struct Stop {
    pub number: usize,
    pub full: FullChart,
    pub first: usize,
}

impl Stop {
    ghost use Rattle.std.specs.Prelude.{ℕ, List};
    ghost use Rattle.bookformat.specs.Books.{book_value};

    /// The first stop, which every list of links has, however long and whether it is a path or not.
    pub fn first(book: &Book) -> Stop
        ensures { (links : List ℕ) → At (book_value book.now) links 0 result }
    {
        let number = usize::from(book.first);
        Stop {
            number,
            full: FullChart::numbered(book, number),
            first: 0,
        }
    }

    ghost use Rattle.std.specs.Prelude.{◌≡◌, ◌+◌, ◌^◌, ◌<◌, ◌≤◌, length};
    ghost use Rattle.routes.specs.Stops.{At, dates_of};

    /// The place behind its last date.
    pub fn end(&self) -> usize
        requires { self.now.first + length self.now.full.stations.items < 2 ^ 64 }
        ensures { result ≡ self.now.first + length self.now.full.stations.items }
    {
        self.first + self.full.count()
    }

    /// Its part of the dates of the path.
    pub fn dates<'a>(&self, dates: &'a [u32]) -> &'a [u32]
        requires { self.now.first + length self.now.full.stations.items ≤ length dates.now }
        ensures { result.now ≡ dates_of self.now dates.now }
    {
        &dates[self.first..self.first + self.full.count()]
    }
}
