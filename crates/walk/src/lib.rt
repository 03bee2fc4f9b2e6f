//! The walk through the classes of a book's datable paths: how it begins, and how it goes on.
#![tactic(auto)]

mod going;
mod outcome;
mod pairs;
mod stepping;
mod watch;

pub use going::go_on;
pub use outcome::Outcome;
pub use pairs::row_at;
pub use stepping::{begin_walk, step};
pub use watch::{Unwatched, Watch};
