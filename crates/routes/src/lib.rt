//! Paths through a book, and the stops along them.
#![tactic(auto)]

mod path;
mod stop;

pub use path::{BookPath, MOST_LINKS, is_path, next_link};
pub use stop::Stop;
