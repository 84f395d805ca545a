// What a log asks for, as text: a line a record, and a closing line.
#![tactic(auto)]

mod call;
mod lines;
mod tally;

pub use call::{AnyFault, AnyKey, Note, Request};
pub use lines::list;
pub use tally::Tally;
