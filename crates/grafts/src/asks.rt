// What an edit asks before it drafts anything: rest, a fitting end of the search, room in the pool, free nodes.
ghost use Rattle.std.specs.Prelude.{◌≡◌, ◌≤◌};
ghost use Rattle.store.specs.Nodes.{link_number};
ghost use Rattle.stacks.specs.Held.{held};
ghost use Rattle.grafts.specs.Grafts.{rest_at, vacant, same_by, apart, size_by, room_at, drop_needs};
ghost use Rattle.grafts.specs.Drafted.{FindsFree};

use drafts::MOST_NEW;
use edits::{Doing, During, Refusal, Tree};
use keys::Ordered;
use search::{Found, find_free};
use std::cmp::Ordering;
use store::{Node, Store, StoreFault, linked};

// The seats, and the nodes that are kept for copies.
const RESERVED: usize = 32 + MOST_NEW;

// An edit begins at rest.
pub(crate) fn at_rest(tree: &Tree) -> Result<(), Refusal>
    ensures { result ≡ rest_at (held tree.now.path) }
{
    tree.path.last().map_or(Ok(()), |_| Err(Refusal::Busy))
}

// The search for a range has met no region.
pub(crate) fn meets_none(end: Option<u16>) -> Result<(), Refusal>
    ensures { result ≡ vacant end }
{
    end.map_or(Ok(()), |_| Err(Refusal::Overlaps))
}

// A region is split past its low key; an ill-formed key is the same as none.
#[tactic(auto, unfolding(crate::specs::Grafts::same_by))]
pub(crate) fn past_low<K: Ordered>(low: &K, key: &K) -> Result<(), Refusal>
    ensures { result ≡ apart (same_by K.Ordered.fault K.Ordered.order low.now key.now) }
{
    match low.compare(key) {
        Ok(Ordering::Equal) => Err(Refusal::SameAsLow),
        _ => Ok(()),
    }
}

// How many nodes the tree at a link has, as its top says.
fn size_at<S: Store>(store: &S, link: u16) -> Result<u16, StoreFault>
    ensures { result ≡ size_by (S.Store.cells store.now) (link_number link) }
{
    let Some(n) = linked(link) else {
        return Ok(0);
    };
    let v = store.read(n as usize)?;
    Ok(v.size)
}

// There is room for one more region.
pub(crate) fn has_room<S: Store>(store: &S, root: u16) -> Result<(), Refusal>
    ensures { result ≡ room_at (S.Store.cells store.now) root }
{
    let size = size_at(store, root).during(Doing::Copy)?;
    if store.count().saturating_sub(RESERVED) <= size as usize {
        return Err(Refusal::Full);
    }
    Ok(())
}

// As many free nodes as the edit may take, from the cursor on.
pub(crate) fn free_nodes<S: Store>(store: &S, tree: &Tree, want: usize) -> Result<Found, Refusal>
    requires { want ≤ 96 }
    ensures { FindsFree (S.Store.cells store.now) want result }
{
    let found = find_free(store, tree.cursor, want).during(Doing::Copy)?;
    if found.len() < want {
        return Err(Refusal::Crowded);
    }
    Ok(found)
}

// A drop asks for free nodes only where both sides of its node stand.
pub(crate) fn wanted<K: Copy>(v: &Node<K>) -> usize
    ensures value { result ≡ drop_needs v.now }
    ensures few { result ≤ 96 }
{
    match (linked(v.left), linked(v.right)) {
        (Some(_), Some(_)) => MOST_NEW,
        _ => 0,
    }
}
