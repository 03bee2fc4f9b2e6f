//! Rows, and what every register of rows means.
#![tactic(auto)]

mod interface;
mod row;

pub use interface::{Entered, MOST_ROWS, Register, Unmade};
pub use profile::Profile;
pub use row::{Class, Origin, Row};
