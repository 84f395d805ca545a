// The record store: node records in memory that the host lends. It closes no node.
// A rule of the project: its methods hand the slice to functions, so that what is done to records is said of slices alone.
ghost use Rattle.std.specs.Prelude.{◌≡◌, length};
ghost use Rattle.store.specs.Cells.{mark_answer, read_answer, write_answer, Written, all_readable, nodes_after};
ghost use Rattle.store.specs.Fits.{InRange, readable_fit};

use crate::fault::{Function, StoreFault, index_of};
use crate::interface::Store;
use crate::node::Node;
use keys::Key;

#[derive(Drop)]
pub struct RecordStore<'a, K> {
    nodes: &'a mut [Node<K>],
}

impl<'a, K> RecordStore<'a, K> {
    pub fn new(nodes: &'a mut [Node<K>]) -> RecordStore<'a, K>
        ensures { result.nodes.now ≡ nodes.old }
    {
        RecordStore { nodes }
    }
}

#[tactic(auto, using(crate::proofs::Readables::record_answers))]
fn mark_in<K: Copy>(nodes: &[Node<K>], n: usize) -> Result<u8, StoreFault>
    ensures { result ≡ mark_answer (all_readable nodes.now) n }
{
    let i = index_of(Function::Mark, n, nodes.len())?;
    Ok(nodes[i].mark)
}

#[tactic(auto, using(crate::proofs::Readables::record_answers))]
fn read_in<K: Copy>(nodes: &[Node<K>], n: usize) -> Result<Node<K>, StoreFault>
    ensures { result ≡ read_answer (all_readable nodes.now) n }
{
    let i = index_of(Function::Read, n, nodes.len())?;
    Ok(nodes[i])
}

#[tactic(auto, using(crate::proofs::Readables::record_answers))]
fn write_in<K: Copy>(nodes: &mut [Node<K>], n: usize, v: &Node<K>) -> Result<(), StoreFault>
    ensures value { result ≡ write_answer (all_readable nodes.old) n }
    ensures after { Written (all_readable nodes.old) n v.now (all_readable nodes.new) }
    ensures nodes { nodes.new ≡ nodes_after nodes.old n v.now }
{
    let i = index_of(Function::Write, n, nodes.len())?;
    nodes[i] = *v;
    Ok(())
}

#[tactic(auto, using(crate::proofs::Readables::record_answers))]
impl<'a, K: Key> Store for RecordStore<'a, K> {
    type Key = K;

    ghost cells = { λ s. all_readable s.nodes.now };

    ghost fit = { λ s. InRange (length s.nodes.now) };

    ghost lawful = { λ s f. readable_fit s.nodes.now f };

    fn count(&self) -> usize {
        self.nodes.len()
    }

    fn mark(&self, n: usize) -> Result<u8, StoreFault> {
        mark_in(self.nodes, n)
    }

    fn read(&self, n: usize) -> Result<Node<K>, StoreFault> {
        read_in(self.nodes, n)
    }

    // Besides what every store's write says: the records after it.
    fn write(&mut self, n: usize, v: &Node<K>) -> Result<(), StoreFault>
        ensures value { result ≡ write_answer (all_readable self.old.nodes.now) n }
        ensures after { Written (all_readable self.old.nodes.now) n v.now (all_readable self.new.nodes.now) }
        ensures keeps { InRange (length self.old.nodes.now) → InRange (length self.new.nodes.now) }
        ensures nodes { self.new.nodes.now ≡ nodes_after self.old.nodes.now n v.now }
    {
        write_in(self.nodes, n, v)
    }
}
