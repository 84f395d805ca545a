// A node: what a store keeps under a number.
ghost use Rattle.std.specs.Prelude.{◌≡◌};
ghost use Rattle.store.specs.Nodes.{region_of, plain, waiting, link_number};

// The marks of a node. They are numbers and no enum, since a store takes any byte as a mark and gives it back as it was.
pub const FREE: u8 = 0;

pub const LIVE: u8 = 1;

pub const WAITING: u8 = 2;

pub const SEAT: u8 = 3;

#[derive(Clone, Copy, PartialEq, Eq, Debug)]
pub struct Node<K> {
    // One of the four marks, or any other byte.
    pub mark: u8,
    // The numbers of the nodes on both sides; 0 is none.
    pub left: u16,
    pub right: u16,
    // How many nodes the tree below has, with this one.
    pub size: u16,
    // The rows of the region.
    pub rows: u64,
    // The sessions that a node that left the tree waits for: bit s for session s.
    pub waits: u32,
    // The region's bounds: low belongs to it, high does not.
    pub low: K,
    pub high: K,
}

// The region of a node, passed along whole.
#[derive(Clone, Copy, PartialEq, Eq, Debug)]
pub struct Region<K> {
    pub low: K,
    pub high: K,
    pub rows: u64,
}

impl<K: Copy> Node<K> {
    // A node that has a mark and keys, and zeros elsewhere.
    pub fn plain(mark: u8, low: K, high: K) -> Node<K>
        ensures { result ≡ plain mark low high }
    {
        Node {
            mark,
            left: 0,
            right: 0,
            size: 0,
            rows: 0,
            waits: 0,
            low,
            high,
        }
    }

    pub fn region(&self) -> Region<K>
        ensures { result ≡ region_of self.now }
    {
        Region {
            low: self.low,
            high: self.high,
            rows: self.rows,
        }
    }

    // The node as it waits for these sessions, free where there are none; the rest as it is.
    pub fn waiting(&self, sessions: u32) -> Node<K>
        ensures { result ≡ waiting sessions self.now }
    {
        Node {
            mark: if sessions == 0 { FREE } else { WAITING },
            waits: sessions,
            ..*self
        }
    }
}

// The node that a link leads to; link 0 leads to none. The rules keep links as numbers in a node, and have this one function read them.
pub fn linked(link: u16) -> Option<u16>
    ensures { result ≡ link_number link }
{
    if link == 0 { None } else { Some(link) }
}
