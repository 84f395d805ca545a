// Sides of a node: looking at one, taking one apart, and a new node over two of them.
ghost use Rattle.std.specs.Prelude.{◌≡◌, ◌<◌, ◌≤◌, length};
ghost use Rattle.drafts.specs.Grown.{seen, both_seen, joined, joined_by, size_over};
ghost use Rattle.drafts.specs.Drafts.{tree_of, Fine, Good, seen_of, good_told, seen_told, both_good, both_told, Takes, Joins};

use crate::draft::Draft;
use crate::link::{Branch, Lean, Link, Numbered, Side};
use keys::Key;
use store::{Region, Store, StoreFault, linked};

// The size over two weights, held to 16 bits.
pub fn size_over(a: u32, b: u32) -> u16
    requires small { (a ≤ 65536) × (b ≤ 65536) }
    requires some { 1 ≤ a }
    ensures { result ≡ size_over a b }
{
    (a + b - 1).min(65535) as u16
}

impl<K: Key> Draft<K> {
    // What a link leads to: one read at a node of the store, none elsewhere.
    pub fn see<S: Store<Key = K>>(&self, store: &S, link: Link) -> Result<Side<K>, StoreFault>
        requires { Fine self.now link }
        ensures value { seen_told self.now result ≡ seen (S.Store.cells store.now) (tree_of self.now link) }
        ensures good { good_told self.now result }
    {
        match link {
            Link::Old(n) => {
                let Some(number) = linked(n) else {
                    return Ok(Side::Empty);
                };
                let node = store.read(number as usize)?;
                Ok(Side::Stored(Numbered { number, node }))
            }
            Link::New(i) => Ok(Side::Drafted(i, self.entry(i))),
        }
    }

    // What two links lead to.
    pub fn see_both<S: Store<Key = K>>(
        &self,
        store: &S,
        left: Link,
        right: Link,
    ) -> Result<(Side<K>, Side<K>), StoreFault>
        requires left { Fine self.now left }
        requires right { Fine self.now right }
        ensures value { both_told self.now result ≡ both_seen (S.Store.cells store.now) (tree_of self.now left) (tree_of self.now right) }
        ensures good { both_good self.now result }
    {
        let left = self.see(store, left)?;
        let right = self.see(store, right)?;
        Ok((left, right))
    }
}

impl<K: Copy> Draft<K> {
    // The top of a side; where it is a node of the store, it leaves.
    pub fn take_apart(&mut self, side: &Side<K>) -> Option<Branch<K>>
        requires out { length self.old.gone < 96 }
        requires side { Good self.old side.now }
        ensures { Takes self.old self.new result (seen_of self.old side.now) }
    {
        match side {
            Side::Empty => None,
            Side::Stored(p) => {
                let v = &p.node;
                self.leave(*p);
                Some(Branch {
                    size: v.size,
                    region: v.region(),
                    left: Link::Old(v.left),
                    right: Link::Old(v.right),
                })
            }
            Side::Drafted(_, b) => Some(*b),
        }
    }

    // A new node over two sides. The region and the sides stand apart, here and where they are balanced: a struct of the three would be the
    // node before it is made.
    pub fn join(&mut self, region: Region<K>, left: &Side<K>, right: &Side<K>) -> Side<K>
        requires room { length self.old.made < 96 }
        requires left { Good self.old left.now }
        requires right { Good self.old right.now }
        ensures { Joins 1 self.old self.new result (joined region (seen_of self.old left.now) (seen_of self.old right.now)) }
    {
        let b = Branch {
            size: size_over(left.weight(), right.weight()),
            region,
            left: left.link(),
            right: right.link(),
        };
        Side::Drafted(self.add(b), b)
    }

    // A new node over a nearer and a farther side.
    #[tactic(auto, unfolding(crate::specs::Grown::joined_by))]
    pub(crate) fn join_by(
        &mut self,
        lean: Lean,
        region: Region<K>,
        inner: &Side<K>,
        outer: &Side<K>,
    ) -> Side<K>
        requires room { length self.old.made < 96 }
        requires inner { Good self.old inner.now }
        requires outer { Good self.old outer.now }
        ensures { Joins 1 self.old self.new result (joined_by lean region (seen_of self.old inner.now) (seen_of self.old outer.now)) }
    {
        match lean {
            Lean::Right => self.join(region, inner, outer),
            Lean::Left => self.join(region, outer, inner),
        }
    }
}
