// The one interface of stores, over which the tree is written.
ghost use Rattle.std.specs.Prelude.{◌≡◌, List};
ghost use Rattle.store.specs.Cells.{Cell, count_answer, mark_answer, read_answer, write_answer, Written};
ghost use Rattle.store.specs.Fits.{FitCells};

use crate::fault::StoreFault;
use crate::node::Node;
use keys::Key;

// A store has N nodes, numbered from 1 to N. All that its four functions answer follows from its cells:
// questions change nothing, a refused write changes nothing, and a write changes its own cell alone.
pub trait Store {
    // The kind of the keys that the nodes hold.
    type Key: Key;

    // What the store means: cell by cell, a node that can be read or a closed one with its mark.
    ghost cells: { Self → List (Cell Self.Key) };

    // Whether the store is fit for a catalogue: a write keeps it so.
    ghost fit: { Self → Type 0 };

    // A fit store has from 160 to 4,096 nodes, and each closed one has mark 0.
    ghost lawful: { (s : Self) → fit s → FitCells (cells s) };

    // N.
    fn count(&self) -> usize
        ensures { result ≡ count_answer (cells self.now) };

    // The mark of node n, closed or not; refused as outside exactly if n is 0 or above N.
    fn mark(&self, n: usize) -> Result<u8, StoreFault>
        ensures { result ≡ mark_answer (cells self.now) n };

    // Node n; refused as outside as above, and as closed exactly if the node is.
    fn read(&self, n: usize) -> Result<Node<Self::Key>, StoreFault>
        ensures { result ≡ read_answer (cells self.now) n };

    // Replaces node n by v; refused as outside as above.
    // That it keeps the store fit is said by each function that writes, and is no invariant of a type: what they promise holds of stores that
    // are not fit, too.
    fn write(&mut self, n: usize, v: &Node<Self::Key>) -> Result<(), StoreFault>
        ensures value { result ≡ write_answer (cells self.old) n }
        ensures after { Written (cells self.old) n v.now (cells self.new) }
        ensures keeps { fit self.old → fit self.new };
}
