// Split: the lower part takes the node's place, over the right side with the upper part as its least.
ghost use Rattle.std.specs.Prelude.{◌≡◌};
ghost use Rattle.stacks.specs.Held.{held};
ghost use Rattle.search.specs.Searches.{less_by};
ghost use Rattle.edits.specs.Calls.{EditsInside};
ghost use Rattle.grafts.specs.Grafts.{same_by, lower_of, upper_of, split_told};

use crate::asks::{free_nodes, has_room, past_low};
use crate::ends::finish;
use crate::holding::hold;
use drafts::{Draft, MOST_NEW};
use edits::{Doing, During, Refusal, Tree};
use search::Sought;
use store::{Node, Region, Store};
use walks::part;

// The parts of a node's region below a key and from it on, with their rows.
fn cut<K: Copy>(v: &Node<K>, key: K, lower: u64, upper: u64) -> (Region<K>, Region<K>)
    ensures { result ≡ (lower_of key lower v.now, upper_of key upper v.now) }
{
    let below = Region {
        low: v.low,
        high: key,
        rows: lower,
    };
    let above = Region {
        low: key,
        high: v.high,
        rows: upper,
    };
    (below, above)
}

// Turns the region that holds the key into its two parts there; answers how many nodes are pending.
pub fn split_region<S: Store>(
    store: &mut S,
    tree: &mut Tree,
    draft: &mut Draft<S::Key>,
    key: S::Key,
    lower: u64,
    upper: u64,
    sessions: u32,
) -> Result<usize, Refusal>
    ensures edits { EditsInside (S.Store.cells store.old) (S.Store.cells store.new) (held tree.old.path) (held tree.new.path) tree.old.root tree.new.root result (split_told (less_by S.Key.Ordered.fault S.Key.Ordered.order) (same_by S.Key.Ordered.fault S.Key.Ordered.order) (S.Store.cells store.old) (held tree.old.path) tree.old.root sessions key lower upper) }
    ensures keeps { S.Store.fit store.old → S.Store.fit store.new }
{
    draft.clear();
    let (way, p) = hold(store, tree, &key)?;
    past_low(&p.node.low, &key)?;
    has_room(store, tree.root)?;
    let mut found = free_nodes(store, tree, MOST_NEW)?;
    let (below, above) = cut(&p.node, key, lower, upper);
    let side = part(store, draft, &p, below, above).during(Doing::Copy)?;
    let sought = Sought::Holder(key);
    finish(
        store,
        tree,
        draft,
        way,
        &sought,
        side.link(),
        &mut found,
        sessions,
    )
}
