//! Reads a chart book from its bytes.
#![tactic(auto)]

mod charts;
mod links;
mod reader;

pub use bookformat::{
    ArrayVec, Book, Bounded, Chart, Constraint, Event, Fault, Interval, Kind, Link, Refusal,
};
pub use bookrecords::{RecordBytes, Unwatched, Watch, record};
pub use reader::{read_book, read_watched};
