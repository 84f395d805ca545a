// A stack of bounded height by value: what an edit holds (its path, the nodes that it makes and that leave, the free nodes that it
// found) lies in the stack itself, since an edit allocates nothing.
#![tactic(auto)]

ghost use Rattle.std.specs.Prelude.{◌≡◌, ◌-◌, ◌<◌, ◌≤◌, List, [], ◌∷◌, ◌++◌, length, take, slice_get};

mod numbers;

pub use numbers::Numbers;
use std::marker::Model;

// At most N items, the last one on top. It cannot be `Copy`: the toolchain refuses that beside `impl Model` where the view does not give
// the fields back. The places above the top hold what was there, or what the stack was made with. `Numbers`, which has a ghost field in place
// of the `impl Model`, can be copied.
#[derive(Clone, Drop)]
pub struct Stack<T, const N: usize> {
    places: [T; N],
    height: usize,
}

// Clauses see the items, from the bottom up.
impl<T, const N: usize> Model for Stack<T, N> {
    ghost Value = { List T };

    ghost view = { λ s. take s.height s.places };

    ghost invariant = { λ s. (s.height ≤ N) × (length s.places ≡ N) };
}

impl<T, const N: usize> Stack<T, N> {
    pub fn len(&self) -> usize
        ensures value { result ≡ length self.now }
        ensures most { result ≤ N }
    {
        self.as_slice().len()
    }

    pub fn clear(&mut self)
        ensures { self.new ≡ [] }
    {
        self.height = 0;
    }

    // The items, from the bottom up.
    pub fn as_slice(&self) -> &[T]
        ensures items { result.now ≡ self.now }
        ensures most { length result.now ≤ N }
    {
        &self.places[..self.height]
    }
}

impl<T: Copy + Default, const N: usize> Stack<T, N> {
    // A stack with no items.
    pub fn new() -> Stack<T, N>
        ensures { result ≡ [] }
    {
        Stack::over(T::default())
    }
}

impl<T: Copy, const N: usize> Stack<T, N> {
    // The same for items that have no default: its places hold the blank.
    pub fn over(blank: T) -> Stack<T, N>
        ensures { result ≡ [] }
    {
        Stack {
            places: [blank; N],
            height: 0,
        }
    }

    pub fn push(&mut self, item: T)
        requires { length self.old < N }
        ensures { self.new ≡ self.old ++ (item ∷ []) }
    {
        self.places[self.height] = item;
        self.height += 1;
    }

    // Takes the top item off.
    pub fn pop(&mut self) -> Option<T>
        ensures top { result ≡ slice_get self.old (length self.old - 1) }
        ensures rest { self.new ≡ take (length self.old - 1) self.old }
    {
        let item = self.last()?;
        self.height -= 1;
        Some(item)
    }

    // The top item.
    pub fn last(&self) -> Option<T>
        ensures { result ≡ slice_get self.now (length self.now - 1) }
    {
        self.as_slice().last().copied()
    }
}
