// Nodes as bytes: packing and unpacking, and the byte store.
#![tactic(auto)]

mod alike;
mod layout;
mod meanings;
mod packing;
#[cfg(test)]
mod tests;

pub use alike::write_both;
pub use layout::{both_ways, pack, unpack};
pub use meanings::{byte_store_meaning, same_meaning};
pub use packing::ByteStore;
