//! The examination of a chart book: can any final path of it be dated?
#![tactic(auto)]

mod chain;
mod exam;
mod list;

pub use chain::links_to;
pub use exam::{Examination, date_links};
pub use history::{Answer, Call, Leg, State, Verdict};
pub use list::conduct;
