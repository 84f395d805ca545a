// What an edit looks for before it works: the way down, with its path, and free nodes.
#![tactic(auto)]

mod free;
mod path;
mod search;
#[cfg(test)]
mod tests;

pub use free::{Found, find_free};
pub use path::{DEEPEST, Path};
pub use search::{Sought, descend, side_at};
