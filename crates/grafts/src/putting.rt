// Put: a new node where the search for its range ends.
ghost use Rattle.std.specs.Prelude.{◌≡◌};
ghost use Rattle.stacks.specs.Held.{held};
ghost use Rattle.search.specs.Searches.{less_by};
ghost use Rattle.edits.specs.Calls.{EditsInside};
ghost use Rattle.grafts.specs.Grafts.{put_told};

use crate::asks::{free_nodes, has_room, meets_none};
use crate::ends::{begin, finish};
use drafts::{Draft, Side};
use edits::{Refusal, Tree};
use search::Sought;
use store::{Region, Store};

// Links a new node with the region; answers how many nodes are pending. The region's keys are the caller's affair.
pub fn put_region<S: Store>(
    store: &mut S,
    tree: &mut Tree,
    draft: &mut Draft<S::Key>,
    region: Region<S::Key>,
    sessions: u32,
) -> Result<usize, Refusal>
    ensures edits { EditsInside (S.Store.cells store.old) (S.Store.cells store.new) (held tree.old.path) (held tree.new.path) tree.old.root tree.new.root result (put_told (less_by S.Key.Ordered.fault S.Key.Ordered.order) (S.Store.cells store.old) (held tree.old.path) tree.old.root sessions region) }
    ensures keeps { S.Store.fit store.old → S.Store.fit store.new }
{
    draft.clear();
    let sought = Sought::Overlap(region.low, region.high);
    let (way, end) = begin(store, tree, &sought)?;
    meets_none(end)?;
    has_room(store, tree.root)?;
    let mut found = free_nodes(store, tree, 1)?;
    let top = draft.join(region, &Side::Empty, &Side::Empty).link();
    finish(store, tree, draft, way, &sought, top, &mut found, sessions)
}
