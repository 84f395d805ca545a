// Stores of nodes: one interface, the record store and the guard.
#![tactic(auto)]

mod fault;
mod guard;
mod interface;
mod meanings;
mod node;
mod record;

pub use fault::{Cause, Function, StoreFault, index_of};
pub use guard::Guard;
pub use interface::Store;
pub use meanings::{closing_all_is_unfit, guard_meaning, record_store_meaning};
pub use node::{FREE, LIVE, Node, Region, SEAT, WAITING, linked};
pub use record::RecordStore;
