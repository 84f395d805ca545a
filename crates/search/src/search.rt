// The search in the tree: the way down for a key or for a range.
ghost use Rattle.std.specs.Prelude.{◌≡◌, ◌-◌, length};
ghost use Rattle.stacks.specs.Held.{held};
ghost use Rattle.search.specs.Searches.{less_by, side_for, descended, Reaches};

use crate::path::{DEEPEST, Path};
use drafts::Lean;
use keys::{Key, Ordered};
use std::cmp::Ordering;
use store::{Node, Store, StoreFault, linked};

// What is sought: the region that holds a key, or one that overlaps the range [low, high).
#[derive(Clone, Copy)]
pub enum Sought<K> {
    Holder(K),
    Overlap(K, K),
}

// Whether a key is below another; an ill-formed key is below none, and none is below it.
#[tactic(auto, unfolding(crate::specs::Searches::less_by))]
fn less<K: Ordered>(a: &K, b: &K) -> bool
    ensures { result ≡ less_by K.Ordered.fault K.Ordered.order a.now b.now }
{
    matches!(a.compare(b), Ok(Ordering::Less))
}

// On which side of a node the search goes on; none where it ends at the node. For the holder of a key it is the way of a lookup
// (`sessions::way_at`), in the words of a path; to call that and turn its answer into these words would be no shorter.
#[tactic(auto, unfolding(crate::specs::Searches::side_for))]
pub fn side_at<K: Key>(sought: &Sought<K>, v: &Node<K>) -> Option<Lean>
    ensures { result ≡ side_for (less_by K.Ordered.fault K.Ordered.order) sought.now v.now }
{
    match sought {
        Sought::Holder(key) => {
            if less(key, &v.low) {
                return Some(Lean::Left);
            }
            if less(key, &v.high) {
                return None;
            }
            Some(Lean::Right)
        }
        Sought::Overlap(low, high) => {
            if !less(&v.low, high) {
                return Some(Lean::Left);
            }
            if less(low, &v.high) {
                return None;
            }
            Some(Lean::Right)
        }
    }
}

// The way down from a link: the nodes that it passes go on the path, and it ends at a node or, where nothing is found, at none.
// A path has room for 27 nodes; the way ends there in any case, though no tree at rest is so deep.
pub fn descend<S: Store>(
    store: &S,
    sought: &Sought<S::Key>,
    link: u16,
    path: &mut Path,
) -> Result<Option<u16>, StoreFault>
    ensures { Reaches (held path.old) (held path.new) result (descended (less_by S.Key.Ordered.fault S.Key.Ordered.order) sought.now (S.Store.cells store.now) (27 - length (held path.old)) link) }
{
    let Some(n) = linked(link) else {
        return Ok(None);
    };
    if path.len() == DEEPEST {
        return Ok(None);
    }
    let v = store.read(n as usize)?;
    let Some(side) = side_at(sought, &v) else {
        return Ok(Some(n));
    };
    path.push(n);
    descend(store, sought, side.pick(v.left, v.right), path)
}
