//! What the calls answer, as text in the caller's space.
#![tactic(auto)]

mod found;
mod lines;
mod notices;
mod numbers;
mod reports;
mod sinks;
mod texts;

pub use notices::notice;
pub use reports::report;
