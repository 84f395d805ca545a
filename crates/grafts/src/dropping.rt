// Drop: with an empty side the other one takes the node's place; else the least region of the right side rises.
ghost use Rattle.std.specs.Prelude.{◌≡◌, []};
ghost use Rattle.drafts.specs.Drafts.{gone_of};
ghost use Rattle.stacks.specs.Held.{held};
ghost use Rattle.search.specs.Searches.{less_by};
ghost use Rattle.edits.specs.Calls.{EditsInside};
ghost use Rattle.grafts.specs.Grafts.{drop_graft, drop_told};
ghost use Rattle.grafts.specs.Drafted.{graft_in, fine_in};

use crate::asks::{free_nodes, wanted};
use crate::ends::finish;
use crate::holding::hold;
use drafts::{Draft, Link, Numbered};
use edits::{Doing, During, Refusal, Tree};
use search::Sought;
use store::{Store, StoreFault, linked};
use walks::merge;

// Drafts, in an empty draft, what takes the place of a dropped node.
fn replace<S: Store>(
    store: &S,
    draft: &mut Draft<S::Key>,
    p: &Numbered<S::Key>,
) -> Result<Link, StoreFault>
    requires made { draft.old.made ≡ [] }
    requires gone { gone_of draft.old ≡ [] }
    ensures value { graft_in draft.new result ≡ drop_graft (S.Store.cells store.now) p.now }
    ensures fine { fine_in draft.new result }
{
    match (linked(p.node.left), linked(p.node.right)) {
        (None, _) => {
            draft.leave(*p);
            Ok(Link::Old(p.node.right))
        }
        (Some(_), None) => {
            draft.leave(*p);
            Ok(Link::Old(p.node.left))
        }
        (Some(_), Some(_)) => {
            let side = merge(store, draft, p)?;
            Ok(side.link())
        }
    }
}

// Takes the region that holds the key out of the tree; answers how many nodes are pending.
pub fn drop_region<S: Store>(
    store: &mut S,
    tree: &mut Tree,
    draft: &mut Draft<S::Key>,
    key: S::Key,
    sessions: u32,
) -> Result<usize, Refusal>
    ensures edits { EditsInside (S.Store.cells store.old) (S.Store.cells store.new) (held tree.old.path) (held tree.new.path) tree.old.root tree.new.root result (drop_told (less_by S.Key.Ordered.fault S.Key.Ordered.order) (S.Store.cells store.old) (held tree.old.path) tree.old.root sessions key) }
    ensures keeps { S.Store.fit store.old → S.Store.fit store.new }
{
    draft.clear();
    let (way, p) = hold(store, tree, &key)?;
    let mut found = free_nodes(store, tree, wanted(&p.node))?;
    let top = replace(store, draft, &p).during(Doing::Copy)?;
    let sought = Sought::Holder(key);
    finish(store, tree, draft, way, &sought, top, &mut found, sessions)
}
