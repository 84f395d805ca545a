// The draft of an edit: new nodes that refer to each other by place, and the nodes that leave for them. It knows nothing of free numbers.
// Generic code cannot own it (its stacks have no known size there): whoever knows the kind of the keys makes it and lends it.
ghost use Rattle.std.specs.Prelude.{◌≡◌, ◌<◌, ◌≤◌, [], ◌∷◌, ◌++◌, length};
ghost use Rattle.drafts.specs.declared.link.Link.TheVariants.{New};
ghost use Rattle.drafts.specs.Drafts.{Fine, gone_of, Grew, Stands, height};

use crate::link::{Branch, Link, Numbered};
use keys::Key;
use stacks::Stack;
use store::{FREE, Node};

// No edit makes more nodes, nor do more leave. How much of that room a function needs is another number for each, and stands in its contract.
pub const MOST_NEW: usize = 96;

// New nodes are an arena of places, and no tree of boxes: an edit allocates nothing.
#[derive(Drop)]
pub struct Draft<K> {
    made: Stack<Branch<K>, MOST_NEW>,
    gone: Stack<Numbered<K>, MOST_NEW>,
}

impl<K: Key> Draft<K> {
    // An empty draft, filled with blanks that nothing reads.
    pub fn new() -> Draft<K>
        ensures made { result.made ≡ [] }
        ensures gone { gone_of result ≡ [] }
    {
        let node = Node::plain(FREE, K::filler(), K::filler());
        let blank = Branch {
            size: 0,
            region: node.region(),
            left: Link::Old(0),
            right: Link::Old(0),
        };
        Draft {
            made: Stack::over(blank),
            gone: Stack::over(Numbered { number: 0, node }),
        }
    }
}

impl<K: Copy> Draft<K> {
    // One more new node: its place.
    pub fn add(&mut self, b: Branch<K>) -> u8
        requires room { length self.old.made < 96 }
        requires left { Fine self.old b.left }
        requires right { Fine self.old b.right }
        ensures grew { Grew 1 0 self.old self.new }
        ensures stands { Stands self.new result b }
        ensures gone { gone_of self.new ≡ gone_of self.old }
    {
        let place = self.made.len();
        self.made.push(b);
        place as u8
    }

    // One more node that leaves.
    pub fn leave(&mut self, p: Numbered<K>)
        requires { length self.old.gone < 96 }
        ensures gone { gone_of self.new ≡ gone_of self.old ++ (p ∷ []) }
        ensures made { self.new.made ≡ self.old.made }
    {
        self.gone.push(p);
    }

    // An empty draft again.
    pub fn clear(&mut self)
        ensures made { self.new.made ≡ [] }
        ensures gone { gone_of self.new ≡ [] }
    {
        self.made.clear();
        self.gone.clear();
    }

    // The new node at a place.
    #[tactic(auto, using(crate::proofs::Arena::fine_within))]
    pub fn entry(&self, i: u8) -> Branch<K>
        requires { Fine self.now (New i) }
        ensures stands { Stands self.now i result }
        ensures lower { (height result.left ≤ i) × (height result.right ≤ i) }
    {
        self.made.as_slice()[i as usize]
    }

    // The nodes that leave, in the order in which they were taken apart.
    pub fn gone(&self) -> &[Numbered<K>]
        ensures { result.now ≡ gone_of self.now }
    {
        self.gone.as_slice()
    }
}
