use bookformat::{Interval, Kind};
use chartbook::{RecordBytes, Watch};
use std::io;

/// Prints a line for each record, until printing fails.
// (The trace of a walk is another: it watches another trait, and shares two fields and a test with this one.)
#[derive(Drop)]
pub struct Trace<'a> {
    rt: &'a HostRuntime,
    printed: io::Result<()>,
}

impl<'a> Trace<'a> {
    pub fn new(rt: &'a HostRuntime) -> Trace<'a> {
        Trace {
            rt,
            printed: Ok(()),
        }
    }

    /// Whether every line was printed.
    pub fn finish(self) -> io::Result<()> {
        self.printed
    }
}

impl Watch for Trace<'_> {
    fn record(&mut self, record: RecordBytes<'_>, number: usize, place: usize) {
        if self.printed.is_ok() {
            self.printed = print_record(self.rt, record, number, place);
        }
    }

    fn order(&mut self, chart: usize, is_sound: bool) {
        if self.printed.is_ok() {
            self.printed = print_order(self.rt, chart, is_sound);
        }
    }
}

fn print_record(
    rt: &HostRuntime,
    record: RecordBytes<'_>,
    number: usize,
    place: usize,
) -> io::Result<()> {
    match record {
        RecordBytes::Mark(bytes) => print_mark(rt, place, bytes),
        RecordBytes::Header(bytes) => print_header(rt, place, bytes),
        RecordBytes::ChartHead(bytes) => print_chart(rt, number, place, bytes),
        RecordBytes::Event(bytes) => print_event(rt, number, place, bytes),
        RecordBytes::Constraint(bytes) => print_constraint(rt, number, place, bytes),
        RecordBytes::Link(bytes) => print_link(rt, number, place, bytes),
    }
}

fn print_mark(rt: &HostRuntime, place: usize, bytes: &[u8; 5]) -> io::Result<()> {
    let [a, b, c, high, low] = *bytes;
    let version = u16::from_be_bytes([high, low]);
    match *bytes {
        [b'T', b'C', b'M', ..] => println!(rt; "{place} mark TCM version {version}"),
        _ => println!(rt; "{place} mark {a:02X}h {b:02X}h {c:02X}h version {version}"),
    }
}

fn print_header(rt: &HostRuntime, place: usize, bytes: &[u8; 8]) -> io::Result<()> {
    let [
        stations,
        charts,
        first,
        links,
        near_high,
        near_low,
        far_high,
        far_low,
    ] = *bytes;
    let near = u16::from_be_bytes([near_high, near_low]);
    let far = u16::from_be_bytes([far_high, far_low]);
    println!(rt;
        "{place} header stations {stations} charts {charts} first {first} links {links} near {near} far {far}"
    )
}

fn print_chart(rt: &HostRuntime, number: usize, place: usize, bytes: &[u8; 3]) -> io::Result<()> {
    let [events, constraints, final_mark] = *bytes;
    println!(rt;
        "{place} chart {number} events {events} constraints {constraints} final {final_mark}"
    )
}

fn print_event(rt: &HostRuntime, number: usize, place: usize, bytes: &[u8; 3]) -> io::Result<()> {
    let [station, kind, pair] = *bytes;
    match Kind::try_from(kind) {
        Ok(Kind::Send) => println!(rt;
            "{place} event {number} station {station} sends to event {pair}"
        ),
        Ok(Kind::Receive) => println!(rt;
            "{place} event {number} station {station} receives from event {pair}"
        ),
        Err(_) => println!(rt;
            "{place} event {number} station {station} kind {kind:02X}h with event {pair}"
        ),
    }
}

fn print_order(rt: &HostRuntime, chart: usize, is_sound: bool) -> io::Result<()> {
    if is_sound {
        println!(rt; "chart {chart} order sound")
    } else {
        println!(rt; "chart {chart} order cyclic")
    }
}

/// An interval, without an upper end where there is none.
fn print_interval(rt: &HostRuntime, interval: Interval) -> io::Result<()> {
    let Interval { lower, upper } = interval;
    match upper {
        Some(upper) => print!(rt; " {lower}..{upper}"),
        None => print!(rt; " {lower}.."),
    }
}

fn print_constraint(
    rt: &HostRuntime,
    number: usize,
    place: usize,
    bytes: &[u8; 6],
) -> io::Result<()> {
    let [first, second, a, b, c, d] = *bytes;
    print!(rt; "{place} constraint {number} from event {first} to event {second} in")?;
    print_interval(rt, Interval::from([a, b, c, d]))?;
    println!(rt; "")
}

fn print_link(rt: &HostRuntime, number: usize, place: usize, bytes: &[u8; 34]) -> io::Result<()> {
    let [from, to, ..] = *bytes;
    print!(rt; "{place} link {number} from chart {from} to chart {to} in")?;
    let (intervals, _) = bytes[2..].as_chunks();
    for interval in intervals {
        print_interval(rt, Interval::from(*interval))?;
    }
    println!(rt; "")
}
