// The writer's calls over any store: edits of the tree.
#![tactic(auto)]

mod fault;
mod pending;
mod tree;

pub use commits::Joint;
pub use fault::{Doing, During, Refusal, TreeFault};
pub use pending::{Plan, Weighed};
pub use search::{Found, Path, Sought, descend, find_free};
pub use tree::Tree;
