// The node that holds a key: drop and split begin there.
ghost use Rattle.std.specs.Prelude.{◌≡◌};
ghost use Rattle.stacks.specs.Held.{held};
ghost use Rattle.search.specs.Searches.{less_by};
ghost use Rattle.grafts.specs.Grafts.{held_by};
ghost use Rattle.grafts.specs.Drafted.{Holds};

use crate::ends::begin;
use drafts::Numbered;
use edits::{Doing, During, Refusal, Tree};
use search::{Path, Sought};
use store::Store;

// The node that holds the key, with the way to it, from rest.
pub(crate) fn hold<S: Store>(
    store: &S,
    tree: &Tree,
    key: &S::Key,
) -> Result<(Path, Numbered<S::Key>), Refusal>
    ensures { Holds result (held_by (less_by S.Key.Ordered.fault S.Key.Ordered.order) key.now (S.Store.cells store.now) (held tree.now.path) tree.now.root) }
{
    let (way, end) = begin(store, tree, &Sought::Holder(*key))?;
    let number = end.ok_or(Refusal::Missing)?;
    let node = store.read(number as usize).during(Doing::Copy)?;
    Ok((way, Numbered { number, node }))
}
