// Links of a tree under work, and what they lead to.
ghost use Rattle.std.specs.Prelude.{◌≡◌, ◌≤◌};
ghost use Rattle.drafts.specs.Drafts.{other_side, on_side, link_on, side_weight, link_of};

use store::{Node, Region};

// A node of the store by its number, or a new one by its place in the draft. The links of nodes are copied as they are, 0 for none with them:
// an absence of its own would be put in at each copy, and taken out at each write.
#[derive(Clone, Copy, PartialEq, Eq, Debug)]
pub enum Link {
    Old(u16),
    New(u8),
}

// A side of a node.
#[derive(Clone, Copy, PartialEq, Eq, Debug)]
pub enum Lean {
    Right,
    Left,
}

impl Lean {
    pub fn other(self) -> Lean
        ensures { result ≡ other_side self }
    {
        match self {
            Lean::Right => Lean::Left,
            Lean::Left => Lean::Right,
        }
    }

    // Of two things, the one on this side.
    pub fn pick<T: Copy>(self, left: T, right: T) -> T
        ensures { result ≡ on_side self left right }
    {
        match self {
            Lean::Right => right,
            Lean::Left => left,
        }
    }
}

// A new node: not in the store yet.
#[derive(Clone, Copy)]
pub struct Branch<K> {
    pub size: u16,
    pub region: Region<K>,
    pub left: Link,
    pub right: Link,
}

impl<K: Copy> Branch<K> {
    // The link on one side.
    pub fn link_on(&self, side: Lean) -> Link
        ensures { result ≡ link_on side self.now }
    {
        side.pick(self.left, self.right)
    }
}

// A node of the store with its number.
#[derive(Clone, Copy)]
pub struct Numbered<K> {
    pub number: u16,
    pub node: Node<K>,
}

// A side of a node, as it was seen (that it and its links belong to a draft stands in contracts: a type that held the draft would lock it
// while it grows): nothing, a node that was read, or a new one with its place.
#[derive(Clone, Copy)]
pub enum Side<K> {
    Empty,
    Stored(Numbered<K>),
    Drafted(u8, Branch<K>),
}

impl<K: Copy> Side<K> {
    // One more than its size.
    pub fn weight(&self) -> u32
        ensures value { result ≡ side_weight self.now }
        ensures small { (1 ≤ result) × (result ≤ 65536) }
    {
        match self {
            Side::Empty => 1,
            Side::Stored(p) => u32::from(p.node.size) + 1,
            Side::Drafted(_, b) => u32::from(b.size) + 1,
        }
    }

    // The link that leads to it.
    pub fn link(&self) -> Link
        ensures { result ≡ link_of self.now }
    {
        match self {
            Side::Empty => Link::Old(0),
            Side::Stored(p) => Link::Old(p.number),
            Side::Drafted(i, _) => Link::New(*i),
        }
    }
}
