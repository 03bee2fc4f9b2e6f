ghost use Rattle.bookformat.specs.Values.{value_of};
ghost use Rattle.bookformat.specs.Rules.{GoodBook};

use crate::bounded::Bounded;
use crate::value::{Chart, Event, Kind, Link};
use std::alloc::AllocError;

/// A chart book that keeps every rule. The format's own limits size its storage.
#[derive(Copy)]
pub struct Book {
    pub stations: u8,
    pub first: u8,
    pub near: u16,
    pub far: u16,
    pub charts: Bounded<Chart, 32>,
    pub links: Bounded<Link, 128>,
    pub ghost good: { ∥ GoodBook (value_of stations first near far charts.items links.items) ∥₁ },
}

// (By hand, as a copy has to be seen to be the same book, and so good.)
impl Clone for Book {
    ghost use Rattle.std.specs.Prelude.{◌≡◌};

    ghost is_clone = { λ old new. new ≡ old };

    ghost is_infallible = { λ _. Unit {0} };

    fn clone(&self) -> Result<Book, AllocError> {
        Ok(*self)
    }
}

impl Book {
    ghost use Rattle.std.specs.Prelude.{◌≡◌, ◌<◌, length};
    ghost use Rattle.bookformat.specs.Values.{chart_value};
    ghost use Rattle.bookformat.specs.Books.{book_value};
    ghost use Rattle.bookformat.specs.Rules.{chart, link};
    ghost use Rattle.bookformat.specs.Smallest.{smallest_book};

    /// The smallest book: two stations, and a chart, not final, with a message from one to the other.
    pub fn smallest() -> Book
        ensures { book_value result ≡ smallest_book }
    {
        let mut chart = Chart::default();
        chart.events.push(Event {
            station: 0,
            kind: Kind::Send,
            pair: 1,
        });
        chart.events.push(Event {
            station: 1,
            kind: Kind::Receive,
            pair: 0,
        });
        let mut charts = Bounded::default();
        charts.push(chart);
        Book {
            stations: 2,
            first: 0,
            near: 0,
            far: 0,
            charts,
            links: Bounded::default(),
        }
    }

    /// The chart with a number.
    pub fn chart(&self, number: usize) -> &Chart
        requires { number < length self.now.charts.items }
        ensures { chart_value result.now ≡ chart (book_value self.now) number }
    {
        &self.charts[number]
    }

    /// The link with a number.
    pub fn link(&self, number: usize) -> &Link
        requires { number < length self.now.links.items }
        ensures { result.now ≡ link (book_value self.now) number }
    {
        &self.links[number]
    }
}
