// The numbers of a report.
ghost use Rattle.std.specs.Prelude.{◌≡◌, ◌≤◌, length, decimal};
ghost use Rattle.report.specs.Reports.{spaced, link_text, dates_text};

use crate::sinks::Sink;
use itoa::Buffer;

/// The digits of a number, in a buffer that is handed in.
fn digits(buffer: &mut Buffer, n: u64) -> &[u8]
    ensures { result.now ≡ decimal n }
{
    buffer.format(n).as_bytes()
}

/// Puts the digits of a number.
pub fn put_number<S: Sink>(sink: &mut S, n: u64)
    requires { length (decimal n) ≤ S.room sink.old }
    ensures { S.Took sink.old (decimal n) sink.new }
{
    let mut buffer = Buffer::new();
    sink.put(digits(&mut buffer, n));
}

/// Puts a number with a space before it.
pub fn put_spaced<S: Sink>(sink: &mut S, n: u64)
    requires { length (spaced n) ≤ S.room sink.old }
    ensures { S.Took sink.old (spaced n) sink.new }
{
    sink.put(b" ");
    put_number(sink, n);
}

/// Puts the number of a link, or a dash where there is none.
pub fn put_link<S: Sink>(sink: &mut S, link: Option<u8>)
    requires { length (link_text link) ≤ S.room sink.old }
    ensures { S.Took sink.old (link_text link) sink.new }
{
    match link {
        Some(link) => put_number(sink, u64::from(link)),
        None => sink.put(b"-"),
    }
}

/// Puts dates, each with a space before it.
pub fn put_dates<S: Sink>(sink: &mut S, dates: &[u32])
    requires { length (dates_text dates.now) ≤ S.room sink.old }
    ensures { S.Took sink.old (dates_text dates.now) sink.new }
{
    for date in dates {
        put_spaced(sink, u64::from(*date));
    }
}
