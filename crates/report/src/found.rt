// The report of a path that was found.
ghost use Rattle.std.specs.Prelude.{◌≡◌, suc, ◌+◌, ◌≤◌, length};
ghost use Rattle.bookformat.specs.Books.{book_value};
ghost use Rattle.paths.specs.Listing.{events_of};
ghost use Rattle.routes.specs.Stops.{dates_of};
ghost use Rattle.report.specs.Texts.{Writes};
ghost use Rattle.report.specs.Means.{LinksReported};
ghost use Rattle.report.specs.Reports.{line_text, lines_text, report_text};

use crate::lines::put_runs;
use crate::numbers::{put_dates, put_link, put_spaced};
use crate::sinks::Sink;
use crate::texts::{Text, write};
use bookformat::{Book, Fault};
use examination::date_links;
use routes::{BookPath, Stop};

/// A path with the dates of its events.
#[derive(Clone, Copy)]
struct Found<'a> {
    path: BookPath<'a>,
    dates: &'a [u32],
    ghost long: { events_of (book_value path.book.now) path.links.now ≤ length dates.now },
}

/// Puts the line of a stop: the link that led to it, its chart's number, and its dates.
fn put_line<S: Sink>(sink: &mut S, link: Option<u8>, stop: &Stop, dates: &[u32])
    requires inside { stop.now.first + length stop.now.full.stations.items ≤ length dates.now }
    requires room { length (line_text link stop.now.number (dates_of stop.now dates.now)) ≤ S.room sink.old }
    ensures { S.Took sink.old (line_text link stop.now.number (dates_of stop.now dates.now)) sink.new }
{
    put_link(sink, link);
    put_spaced(sink, stop.number as u64);
    put_dates(sink, stop.dates(dates));
    sink.put(b"\n");
}

/// Puts the lines of a path's charts.
fn put_lines<S: Sink>(sink: &mut S, found: &Found)
    requires { length (lines_text (book_value found.now.path.book.now) found.now.path.links.now found.now.dates.now (suc (length found.now.path.links.now))) ≤ S.room sink.old }
    ensures { S.Took sink.old (lines_text (book_value found.now.path.book.now) found.now.path.links.now found.now.dates.now (suc (length found.now.path.links.now))) sink.new }
{
    let path = found.path;
    let mut stop = path.first_stop();
    put_line(sink, None, &stop, found.dates);
    for (position, link) in path.links.iter().enumerate() {
        stop = path.stop_after(position, &stop);
        put_line(sink, Some(*link), &stop, found.dates);
    }
}

/// How many charts the path of some links has.
fn chart_count(links: &[u8]) -> usize
    requires { length links.now ≤ 4095 }
    ensures { result ≡ suc (length links.now) }
{
    links.len() + 1
}

/// The report of a path.
impl Text for Found<'_> {
    ghost text = { λ found. report_text (book_value found.path.book.now) found.path.links.now found.dates.now };

    fn put<S: Sink>(&self, sink: &mut S) {
        put_runs(sink, chart_count(self.path.links));
        put_lines(sink, self);
    }
}

/// Writes the report of a path whose dates are known.
fn write_path(path: &BookPath, dates: &[u32], text: &mut [u8]) -> Result<usize, Fault>
    requires { events_of (book_value path.now.book.now) path.now.links.now ≤ length dates.now }
    ensures { Writes (report_text (book_value path.now.book.now) path.now.links.now dates.now) text.old text.new result }
{
    write(&Found { path: *path, dates }, text)
}

/// Writes the report of a list of links with its earliest dates, if the list is a path.
pub fn report_links(
    book: &Book,
    links: &[u8],
    work: &mut [u32],
    text: &mut [u8],
) -> Result<usize, Fault>
    requires { length links.now ≤ 4095 }
    ensures { LinksReported (book_value book.now) links.now work.old text.old result work.new text.new }
{
    date_links(book, links, work)?;
    write_path(&BookPath::new(book, links), work, text)
}
