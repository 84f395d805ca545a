// The end of an edit, when nothing can be refused any more: the new nodes are written, then the one link, then the nodes that leave.
ghost use Rattle.std.specs.Prelude.{◌≡◌, ◌≤◌, map, length, MatchResult, OnErr};
ghost use Rattle.drafts.specs.Drafts.{tree_of, Fine, gone_of};
ghost use Rattle.search.specs.Frees.{left_of};
ghost use Rattle.commits.specs.Commits.{Writes, AllInside, news, placed, with_link, hung, root_after, left_behind, committed, GoneInside, JointInside};

use drafts::{Draft, Lean, Link, Numbered};
use search::Found;
use store::{LIVE, Node, Region, Store, StoreFault};

// The node whose link an edit changes, and on which side. Where there is none, it is the root link that changes.
#[derive(Clone, Copy)]
pub struct Joint<K> {
    pub above: Numbered<K>,
    pub side: Lean,
}

impl<K: Copy> Joint<K> {
    // The node with its link changed.
    fn relinked(&self, n: u16) -> Node<K>
        ensures { result ≡ with_link self.now.side n self.now.above.node }
    {
        let node = self.above.node;
        match self.side {
            Lean::Left => Node { left: n, ..node },
            Lean::Right => Node { right: n, ..node },
        }
    }
}

// Writes the new nodes of the tree at a link, and answers the number of its top.
fn place<S: Store>(
    store: &mut S,
    draft: &Draft<S::Key>,
    link: Link,
    found: &mut Found,
) -> Result<u16, StoreFault>
    requires link { Fine draft.now link }
    requires many { news (tree_of draft.now link) ≤ length (left_of found.old) }
    requires inside { AllInside (length (S.Store.cells store.old)) (left_of found.old) }
    ensures value { MatchResult result (λ n. n ≡ (placed (tree_of draft.now link) (left_of found.old)).top) (λ _. ⊥) }
    ensures writes { Writes (S.Store.cells store.old) (placed (tree_of draft.now link) (left_of found.old)).writes (S.Store.cells store.new) }
    ensures left { left_of found.new ≡ (placed (tree_of draft.now link) (left_of found.old)).rest }
    ensures keeps { S.Store.fit store.old → S.Store.fit store.new }
{
    match link {
        Link::Old(n) => Ok(n),
        Link::New(i) => {
            let b = draft.entry(i);
            let left = place(store, draft, b.left, found)?;
            let right = place(store, draft, b.right, found)?;
            let n = found.next();
            let Region { low, high, rows } = b.region;
            let node = Node {
                mark: LIVE,
                left,
                right,
                size: b.size,
                rows,
                waits: 0,
                low,
                high,
            };
            store.write(n as usize, &node)?;
            Ok(n)
        }
    }
}

// Links a node where the edit changes the tree.
fn hang<S: Store>(
    store: &mut S,
    root: &mut u16,
    joint: Option<Joint<S::Key>>,
    n: u16,
) -> Result<(), StoreFault>
    requires { JointInside (length (S.Store.cells store.old)) joint }
    ensures value { OnErr result (⊥) }
    ensures writes { Writes (S.Store.cells store.old) (hung joint n) (S.Store.cells store.new) }
    ensures root { root.new ≡ root_after joint n root.old }
    ensures keeps { S.Store.fit store.old → S.Store.fit store.new }
{
    match joint {
        None => {
            *root = n;
            Ok(())
        }
        Some(joint) => store.write(joint.above.number as usize, &joint.relinked(n)),
    }
}

// The nodes that leave wait for the open sessions, or are free where none is open.
fn let_go<S: Store>(store: &mut S, draft: &Draft<S::Key>, sessions: u32) -> Result<(), StoreFault>
    requires { GoneInside (length (S.Store.cells store.old)) (gone_of draft.now) }
    ensures value { OnErr result (⊥) }
    ensures writes { Writes (S.Store.cells store.old) (map (left_behind sessions) (gone_of draft.now)) (S.Store.cells store.new) }
    ensures keeps { S.Store.fit store.old → S.Store.fit store.new }
{
    for p in draft.gone() {
        store.write(p.number as usize, &p.node.waiting(sessions))?;
    }
    Ok(())
}

// The whole of it. The premises say how the draft, the numbers found and the store fit one another, which no type of one of them could hold.
// The parameters stay apart: they belong to the store, the tree, the draft and the search, and a struct of the loans would be taken apart in
// the three lines below.
pub fn commit<S: Store>(
    store: &mut S,
    root: &mut u16,
    joint: Option<Joint<S::Key>>,
    draft: &Draft<S::Key>,
    top: Link,
    found: &mut Found,
    sessions: u32,
) -> Result<(), StoreFault>
    requires link { Fine draft.now top }
    requires many { news (tree_of draft.now top) ≤ length (left_of found.old) }
    requires inside { AllInside (length (S.Store.cells store.old)) (left_of found.old) }
    requires joint { JointInside (length (S.Store.cells store.old)) joint }
    requires gone { GoneInside (length (S.Store.cells store.old)) (gone_of draft.now) }
    ensures value { OnErr result (⊥) }
    ensures writes { Writes (S.Store.cells store.old) (committed joint (placed (tree_of draft.now top) (left_of found.old)) sessions (gone_of draft.now)) (S.Store.cells store.new) }
    ensures root { root.new ≡ root_after joint (placed (tree_of draft.now top) (left_of found.old)).top root.old }
    ensures keeps { S.Store.fit store.old → S.Store.fit store.new }
{
    let n = place(store, draft, top, found)?;
    hang(store, root, joint, n)?;
    let_go(store, draft, sessions)
}
