ghost use Rattle.std.specs.Prelude.{◌≡◌, ◌+◌, ◌<◌, ◌≤◌, length, IfOk, Decides};
ghost use Rattle.bookformat.specs.Books.{book_value};
ghost use Rattle.paths.specs.Paths.{chart_at};
ghost use Rattle.paths.specs.Datings.{KeepsChart};
ghost use Rattle.paths.specs.Listing.{events_of, written};
ghost use Rattle.routes.specs.Stops.{At, dates_of};
ghost use Rattle.judge.specs.Judging.{KeepsLinkTo, KeepsPosition, Says};
ghost use Rattle.judge.specs.Walking.{CountChecked};

use crate::judgement::Judgement;
use bookformat::Fault;
use routes::{BookPath, Stop};
use rules::{DatedChart, keeps_chart, keeps_link_in};

/// A path with a date for each of its events.
#[derive(Clone, Copy)]
pub struct DatedPath<'a> {
    path: BookPath<'a>,
    dates: &'a [u32],
    pub ghost count: { length dates.now ≡ events_of (book_value path.book.now) path.links.now },
}

/// The full chart of a stop with its part of the dates.
fn dated_chart<'a>(stop: &'a Stop, dates: &'a [u32]) -> DatedChart<'a>
    requires { stop.now.first + length stop.now.full.stations.items ≤ length dates.now }
    ensures full { result.full.now ≡ stop.now.full }
    ensures dates { result.dates.now ≡ dates_of stop.now dates.now }
{
    DatedChart {
        full: &stop.full,
        dates: stop.dates(dates),
    }
}

impl<'a> DatedPath<'a> {
    /// The path with these dates, if they are as many as it has events.
    pub fn of(path: &BookPath<'a>, dates: &'a [u32]) -> Result<DatedPath<'a>, Fault>
        ensures checked { CountChecked (book_value path.now.book.now) path.now.links.now dates.now result }
        ensures path { IfOk result (λ d. d.path ≡ path.now) }
        ensures dates { IfOk result (λ d. d.dates.now ≡ dates.now) }
    {
        let needed = path.event_count();
        if dates.len() != needed {
            return Err(Fault::WrongDateCount { needed });
        }
        Ok(DatedPath { path: *path, dates })
    }

    /// Does the chart at a position keep its own rules?
    fn keeps_own(&self, position: usize, stop: &Stop) -> bool
        requires inside { position ≤ length self.now.path.links.now }
        requires at { At (book_value self.now.path.book.now) self.now.path.links.now position stop.now }
        ensures { Decides result (KeepsChart (book_value self.now.path.book.now) (chart_at (book_value self.now.path.book.now) self.now.path.links.now position) (written (book_value self.now.path.book.now) self.now.path.links.now self.now.dates.now position)) }
    {
        keeps_chart(self.path.book, stop.number, &dated_chart(stop, self.dates))
    }

    /// Does the link that leaves a position keep its rule?
    fn keeps_link_from(&self, position: usize, left: &Stop, entered: &Stop) -> bool
        requires inside { position < length self.now.path.links.now }
        requires left { At (book_value self.now.path.book.now) self.now.path.links.now position left.now }
        requires entered { At (book_value self.now.path.book.now) self.now.path.links.now (position + 1) entered.now }
        ensures { Decides result (KeepsLinkTo (book_value self.now.path.book.now) self.now.path.links.now (written (book_value self.now.path.book.now) self.now.path.links.now self.now.dates.now) (position + 1)) }
    {
        let before = dated_chart(left, self.dates);
        let after = dated_chart(entered, self.dates);
        keeps_link_in(self.path.book, self.path.link(position), &before, &after)
    }

    /// Does the chart after a position break no rule?
    fn keeps_next(&self, position: usize, left: &Stop, entered: &Stop) -> bool
        requires inside { position < length self.now.path.links.now }
        requires left { At (book_value self.now.path.book.now) self.now.path.links.now position left.now }
        requires entered { At (book_value self.now.path.book.now) self.now.path.links.now (position + 1) entered.now }
        ensures { Decides result (KeepsPosition (book_value self.now.path.book.now) self.now.path.links.now (written (book_value self.now.path.book.now) self.now.path.links.now self.now.dates.now) (position + 1)) }
    {
        self.keeps_own(position + 1, entered) && self.keeps_link_from(position, left, entered)
    }

    /// Are the dates a dating, and if not, where do they first break a rule?
    pub fn judge(&self) -> Judgement
        ensures { Says (book_value self.now.path.book.now) self.now.path.links.now (written (book_value self.now.path.book.now) self.now.path.links.now self.now.dates.now) result }
    {
        let mut here = self.path.first_stop();
        if !self.keeps_own(0, &here) {
            return Judgement::Broken { position: 0 };
        }
        // (By positions: each stop is made from the one before it.)
        for position in 0..self.path.links.len() {
            let next = self.path.stop_after(position, &here);
            if !self.keeps_next(position, &here, &next) {
                return Judgement::Broken {
                    position: position + 1,
                };
            }
            here = next;
        }
        Judgement::Kept
    }
}
