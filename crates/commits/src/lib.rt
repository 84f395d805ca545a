// The end of an edit: what was drafted is written, linked at one place, and what it replaces leaves.
#![tactic(auto)]

ghost use Rattle.commits.specs.Theorems.{TakesEnough};

mod writes;

pub use writes::{Joint, commit};

// A theorem: where every write of an edit falls on a node of the store, there was a number for each new node.
#[tactic(auto, using(crate::proofs::Fallings::takes_enough))]
pub fn takes_enough<K>()
    ensures { TakesEnough K }
{}
