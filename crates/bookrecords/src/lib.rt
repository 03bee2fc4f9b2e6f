//! The records of a book as parts of its bytes, and what each of them says.
#![tactic(auto)]

mod fields;
mod headers;
mod lists;
mod records;
mod singles;

pub use fields::{
    ChartHead, Header, check_end, check_ends, check_interval, is_apart, is_paired, is_silent,
};
pub use headers::read_header;
pub use lists::{Listed, read_bounded, read_list};
pub use records::{
    CONSTRAINT_SIZE, EVENT_SIZE, HEAD_SIZE, LINK_SIZE, RecordBytes, Unwatched, Watch, record,
    sized_record,
};
pub use singles::{EventSetting, read_constraint, read_head};
