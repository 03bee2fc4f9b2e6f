ghost use Rattle.std.specs.Prelude.{◌≡◌, ◌↔◌, ◌≤◌, length, IsTrue, IsSome, IfSome};
ghost use Rattle.bookformat.specs.Values.{BookValue};
ghost use Rattle.bookformat.specs.Books.{book_value};
ghost use Rattle.paths.specs.Paths.{link, Leaves, Path};

use crate::stop::Stop;
use bookformat::{Book, Link};
use fullchart::FullChart;

/// How many links a path may have.
pub const MOST_LINKS: usize = 4095;

/// A path through a book: each of its links leaves the chart where the path stands.
#[derive(Clone, Copy)]
pub struct BookPath<'a> {
    pub book: &'a Book,
    pub links: &'a [u8],
    pub ghost path: { Path (book_value book.now) links.now },
    pub ghost few: { length links.now ≤ 4095 },
}

/// Are the links a path, in whatever book has this first chart and all these links: does each exist, and begin at the
/// chart where the path stands?
pub fn is_path(first: u8, all: &[Link], links: &[u8]) -> bool
    ensures { (b : BookValue) → b.first ≡ first → b.links ≡ all.now → (IsTrue result ↔ Path b links.now) }
{
    let mut at = first;
    for link in links {
        match leaving(all, at, usize::from(*link)) {
            Some(link) => at = link.to,
            None => return false,
        }
    }
    true
}

/// The link with a number among all those of a book, if there is one and it begins at chart `at`.
fn leaving(all: &[Link], at: u8, number: usize) -> Option<&Link>
    ensures leaves { (b : BookValue) → b.links ≡ all.now → (IsSome result ↔ Leaves b at number) }
    ensures link { (b : BookValue) → b.links ≡ all.now → IfSome result (λ l. l.now ≡ link b number) }
{
    all.get(number).filter(|link| link.from == at)
}

/// The link with a number, if there is one and it begins at chart `at`.
pub fn next_link(book: &Book, at: u8, number: usize) -> Option<&Link>
    ensures leaves { IsSome result ↔ Leaves (book_value book.now) at number }
    ensures link { IfSome result (λ l. l.now ≡ link (book_value book.now) number) }
{
    leaving(&book.links, at, number)
}

impl<'a> BookPath<'a> {
    ghost use Rattle.std.specs.Prelude.{ℕ, suc, ◌+◌, ◌-◌, ◌<◌};
    ghost use Rattle.bookformat.specs.Rules.{chart};
    ghost use Rattle.paths.specs.Paths.{link_at, chart_number};
    ghost use Rattle.paths.specs.Listing.{events_before, events_of};
    ghost use Rattle.routes.specs.Stops.{At};

    /// The links as a path, if they are one, and not too many.
    pub fn of(book: &'a Book, links: &'a [u8]) -> Option<BookPath<'a>>
        ensures path { IsSome result ↔ (Path (book_value book.now) links.now × (length links.now ≤ 4095)) }
        ensures book { IfSome result (λ p. p.book.now ≡ book.now) }
        ensures links { IfSome result (λ p. p.links.now ≡ links.now) }
    {
        if links.len() <= MOST_LINKS && is_path(book.first, &book.links, links) {
            Some(BookPath::new(book, links))
        } else {
            None
        }
    }

    /// The links that are known to be a path.
    pub fn new(book: &'a Book, links: &'a [u8]) -> BookPath<'a>
        requires path { Path (book_value book.now) links.now }
        requires few { length links.now ≤ 4095 }
        ensures book { result.book.now ≡ book.now }
        ensures links { result.links.now ≡ links.now }
    {
        BookPath { book, links }
    }

    /// The link that leaves a position.
    pub fn link(&self, position: usize) -> &'a Link
        requires { position < length self.now.links.now }
        ensures { result.now ≡ link_at (book_value self.now.book.now) self.now.links.now position }
    {
        self.book.link(usize::from(self.links[position]))
    }

    /// The number of the chart at a position.
    fn chart_number(&self, position: usize) -> usize
        requires { position ≤ length self.now.links.now }
        ensures { result ≡ chart_number (book_value self.now.book.now) self.now.links.now position }
    {
        if position == 0 {
            return usize::from(self.book.first);
        }
        usize::from(self.link(position - 1).to)
    }

    /// The stop at a position, where its dates begin at `first`.
    fn stop_from(&self, position: usize, first: usize) -> Stop
        requires inside { position ≤ length self.now.links.now }
        requires first { first ≡ events_before (book_value self.now.book.now) self.now.links.now position }
        ensures { At (book_value self.now.book.now) self.now.links.now position result }
    {
        let number = self.chart_number(position);
        Stop {
            number,
            full: FullChart::numbered(self.book, number),
            first,
        }
    }

    /// The stop at a position, where its dates end before `end`.
    pub fn stop_to(&self, position: usize, end: usize) -> Stop
        requires inside { position ≤ length self.now.links.now }
        requires end { end ≡ events_before (book_value self.now.book.now) self.now.links.now (suc position) }
        ensures { At (book_value self.now.book.now) self.now.links.now position result }
    {
        let number = self.chart_number(position);
        let full = FullChart::numbered(self.book, number);
        let first = end - full.count();
        Stop {
            number,
            full,
            first,
        }
    }

    /// The first stop.
    pub fn first_stop(&self) -> Stop
        ensures { At (book_value self.now.book.now) self.now.links.now 0 result }
    {
        Stop::first(self.book)
    }

    /// The stop after that of a position.
    pub fn stop_after(&self, position: usize, stop: &Stop) -> Stop
        requires inside { position < length self.now.links.now }
        requires at { At (book_value self.now.book.now) self.now.links.now position stop.now }
        ensures { At (book_value self.now.book.now) self.now.links.now (position + 1) result }
    {
        self.stop_from(position + 1, stop.end())
    }

    /// The stop before that of a position.
    pub fn stop_before(&self, position: usize, stop: &Stop) -> Stop
        requires inside { (0 < position) × (position ≤ length self.now.links.now) }
        requires at { At (book_value self.now.book.now) self.now.links.now position stop.now }
        ensures { At (book_value self.now.book.now) self.now.links.now (position - 1) result }
    {
        self.stop_to(position - 1, stop.first)
    }

    /// The last stop.
    pub fn last_stop(&self) -> Stop
        ensures { At (book_value self.now.book.now) self.now.links.now (length self.now.links.now) result }
    {
        let mut here = self.first_stop();
        // (By positions: each stop is made from the one before it; with `fold` the proof was tried once and not found.)
        for position in 0..self.links.len() {
            here = self.stop_after(position, &here);
        }
        here
    }

    /// How many events it has, silent ones counted: as many dates as a dating of it.
    pub fn event_count(&self) -> usize
        ensures { result ≡ events_of (book_value self.now.book.now) self.now.links.now }
    {
        self.last_stop().end()
    }
}
