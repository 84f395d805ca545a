// The way down with which an edit begins, and the link with which it ends.
ghost use Rattle.std.specs.Prelude.{◌≡◌, ◌≤◌, length};
ghost use Rattle.drafts.specs.Drafts.{tree_of, Fine, gone_of};
ghost use Rattle.stacks.specs.Held.{held};
ghost use Rattle.search.specs.Searches.{less_by};
ghost use Rattle.search.specs.Frees.{left_of};
ghost use Rattle.commits.specs.Commits.{news, AllInside, GoneInside};
ghost use Rattle.edits.specs.Calls.{Ends, Within};
ghost use Rattle.grafts.specs.Grafts.{joint_for, begun, grafted};
ghost use Rattle.grafts.specs.Drafted.{Begins};

use crate::asks::at_rest;
use commits::{Joint, commit};
use drafts::{Draft, Lean, Link, Numbered};
use edits::{Doing, During, Refusal, Tree};
use search::{Found, Path, Sought, descend, side_at};
use store::{Store, StoreFault};

// The way down for what is sought, from rest: its path, and the node at which it ends, if any.
pub(crate) fn begin<S: Store>(
    store: &S,
    tree: &Tree,
    sought: &Sought<S::Key>,
) -> Result<(Path, Option<u16>), Refusal>
    ensures { Begins result (begun (less_by S.Key.Ordered.fault S.Key.Ordered.order) sought.now (S.Store.cells store.now) (held tree.now.path) tree.now.root) }
{
    at_rest(tree)?;
    let mut way = Path::new();
    let end = descend(store, sought, tree.root, &mut way).during(Doing::Search)?;
    Ok((way, end))
}

// The link at which the search ended: the root link, or the one by which it left the lowest node of its way.
fn joint_for<S: Store>(
    store: &S,
    way: &Path,
    sought: &Sought<S::Key>,
) -> Result<Option<Joint<S::Key>>, StoreFault>
    ensures { result ≡ joint_for (less_by S.Key.Ordered.fault S.Key.Ordered.order) sought.now (S.Store.cells store.now) (held way.now) }
{
    let Some(number) = way.last() else {
        return Ok(None);
    };
    let node = store.read(number as usize)?;
    let side = side_at(sought, &node).unwrap_or(Lean::Right);
    let above = Numbered { number, node };
    Ok(Some(Joint { above, side }))
}

// Links what was drafted where the search ended; the nodes of the way are then pending. The premises are those of `commit`. The parameters
// stay apart: a struct of them would be made in each of the three edits, and taken apart in the lines below.
pub(crate) fn finish<S: Store>(
    store: &mut S,
    tree: &mut Tree,
    draft: &Draft<S::Key>,
    way: Path,
    sought: &Sought<S::Key>,
    top: Link,
    found: &mut Found,
    sessions: u32,
) -> Result<usize, Refusal>
    requires link { Fine draft.now top }
    requires many { news (tree_of draft.now top) ≤ length (left_of found.old) }
    requires inside { AllInside (length (S.Store.cells store.old)) (left_of found.old) }
    requires gone { GoneInside (length (S.Store.cells store.old)) (gone_of draft.now) }
    ensures inside { Within (length (S.Store.cells store.old)) (grafted (less_by S.Key.Ordered.fault S.Key.Ordered.order) sought.now (S.Store.cells store.old) (held way) tree.old.root sessions (left_of found.old) (record { side = tree_of draft.now top; gone = gone_of draft.now })) }
    ensures ends { Ends (S.Store.cells store.old) (S.Store.cells store.new) (held tree.old.path) (held tree.new.path) tree.old.root tree.new.root result (grafted (less_by S.Key.Ordered.fault S.Key.Ordered.order) sought.now (S.Store.cells store.old) (held way) tree.old.root sessions (left_of found.old) (record { side = tree_of draft.now top; gone = gone_of draft.now })) }
    ensures keeps { S.Store.fit store.old → S.Store.fit store.new }
{
    tree.cursor = found.end(tree.cursor);
    let joint = joint_for(store, &way, sought).during(Doing::Copy)?;
    commit(store, &mut tree.root, joint, draft, top, found, sessions).during(Doing::Copy)?;
    tree.path = way;
    Ok(tree.path.len())
}
