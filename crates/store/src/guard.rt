// The guard: stands over any store and has its nodes. It closes those closed below and all with mark 0,
// so that code that reads a free node is told.
ghost use Rattle.std.specs.Prelude.{◌≡◌};
ghost use Rattle.store.specs.Cells.{guarded};
ghost use Rattle.store.specs.Fits.{guarded_fit};

use crate::fault::{Cause, Function, StoreFault};
use crate::interface::Store;
use crate::node::{FREE, Node};

#[derive(Drop)]
pub struct Guard<S> {
    below: S,
}

impl<S> Guard<S> {
    pub fn new(below: S) -> Guard<S>
        ensures { result.below ≡ below }
    {
        Guard { below }
    }
}

#[tactic(auto, using(crate::proofs::Guardings::guard_answers))]
impl<S: Store> Store for Guard<S> {
    type Key = S::Key;

    ghost cells = { λ s. guarded (S.Store.cells s.below) };

    ghost fit = { λ s. S.Store.fit s.below };

    ghost lawful = { λ s f. guarded_fit (S.Store.cells s.below) (S.Store.lawful s.below f) };

    fn count(&self) -> usize {
        self.below.count()
    }

    fn mark(&self, n: usize) -> Result<u8, StoreFault> {
        self.below.mark(n)
    }

    fn read(&self, n: usize) -> Result<Node<S::Key>, StoreFault> {
        let v = self.below.read(n)?;
        if v.mark == FREE {
            return Err(StoreFault {
                function: Function::Read,
                node: n,
                cause: Cause::Closed,
            });
        }
        Ok(v)
    }

    fn write(&mut self, n: usize, v: &Node<S::Key>) -> Result<(), StoreFault> {
        self.below.write(n, v)
    }
}
