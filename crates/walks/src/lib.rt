// The copying walk of drop and split.
#![tactic(auto)]

mod walk;

pub use walk::{merge, part};
