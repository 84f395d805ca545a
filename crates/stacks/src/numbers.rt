// A stack of node numbers by value that can be copied, for the path of an edit and the free nodes that it found. The places above the top
// hold 0, so the numbers alone say what every place holds. Its bound is a ghost field, where `Stack` has an `impl Model`: the toolchain
// proves no `Copy` struct that holds one with an `impl Model` where that struct is passed by value and used again.
ghost use Rattle.std.specs.Prelude.{◌≡◌, ◌-◌, ◌<◌, ◌≤◌, [], ◌∷◌, ◌++◌, length, take, slice_get};
ghost use Rattle.stacks.specs.Padded.{Padded};

// At most N numbers, the last one on top. Clauses see them by `held`, from the bottom up.
#[derive(Clone, Copy)]
pub struct Numbers<const N: usize> {
    places: [u16; N],
    height: usize,
    pub ghost padded: { Padded height N places },
}

impl<const N: usize> Numbers<N> {
    ghost use Rattle.stacks.specs.Held.{held};

    // A stack with no numbers.
    pub fn new() -> Numbers<N>
        ensures { held result ≡ [] }
    {
        Numbers {
            places: [0; N],
            height: 0,
        }
    }

    pub fn len(&self) -> usize
        ensures value { result ≡ length (held self.now) }
        ensures most { result ≤ N }
    {
        self.as_slice().len()
    }

    // The numbers, from the bottom up.
    pub fn as_slice(&self) -> &[u16]
        ensures items { result.now ≡ held self.now }
        ensures most { length result.now ≤ N }
    {
        &self.places[..self.height]
    }

    pub fn push(&mut self, number: u16)
        requires { length (held self.old) < N }
        ensures { held self.new ≡ held self.old ++ (number ∷ []) }
    {
        self.places[self.height] = number;
        self.height += 1;
    }

    // Takes the top number off.
    pub fn pop(&mut self) -> Option<u16>
        ensures top { result ≡ slice_get (held self.old) (length (held self.old) - 1) }
        ensures rest { held self.new ≡ take (length (held self.old) - 1) (held self.old) }
    {
        let number = self.last()?;
        let top = self.height - 1;
        self.places[top] = 0;
        self.height = top;
        Some(number)
    }

    // The top number.
    pub fn last(&self) -> Option<u16>
        ensures { result ≡ slice_get (held self.now) (length (held self.now) - 1) }
    {
        self.as_slice().last().copied()
    }
}
