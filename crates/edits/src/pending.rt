// Advance: the lowest pending node gets its size and, if a side of it is too heavy, is rotated.
ghost use Rattle.std.specs.Prelude.{◌≡◌, ℕ, ◌≤◌, [], if◌then◌else◌, Ok, nat_eq};
ghost use Rattle.drafts.specs.declared.link.Lean.TheVariants.{Left, Right};
ghost use Rattle.drafts.specs.Drafts.{seen_of};
ghost use Rattle.drafts.specs.Grown.{heavy_side, weight};
ghost use Rattle.stacks.specs.Held.{held};
ghost use Rattle.search.specs.Paths.{above};
ghost use Rattle.edits.specs.Calls.{resized, sized, sized_by, sized_in, Fresh, good_in, joint_at, turned_at, turned_in, plan_good, rotation, treated, advanced, Turns, TurnsInside, Edits, EditsInside};

use crate::fault::{Doing, During, Refusal};
use crate::tree::Tree;
use commits::{Joint, commit};
use drafts::{Draft, Lean, Link, Numbered, Side, overweight, size_over};
use search::find_free;
use store::{Node, Store, StoreFault};

// A pending node with its new size, and its sides as they were seen. That the draft was still empty then (`Fresh`) is said in contracts: it is
// the same draft that is filled afterwards, so no type of it could say so.
#[derive(Clone, Copy)]
pub struct Weighed<K> {
    pub node: Numbered<K>,
    pub left: Side<K>,
    pub right: Side<K>,
}

// A rotation that was drafted, and the link that is to lead to it.
#[derive(Clone, Copy)]
pub struct Plan<K> {
    pub top: Side<K>,
    pub joint: Option<Joint<K>>,
}

// A node with its size set.
fn resize<K: Copy>(size: u16, v: &Node<K>) -> Node<K>
    ensures { result ≡ resized size v.now }
{
    Node { size, ..*v }
}

// Reads a pending node and its sides, and sets its size from them.
fn weigh_up<S: Store>(
    store: &S,
    draft: &Draft<S::Key>,
    n: u16,
) -> Result<Weighed<S::Key>, StoreFault>
    ensures value { sized_in draft.now result ≡ sized (S.Store.cells store.now) n }
    ensures good { good_in draft.now result }
{
    let v = store.read(n as usize)?;
    // Seen one by one: as a pair from `see_both` they are copied once more.
    let left = draft.see(store, Link::Old(v.left))?;
    let right = draft.see(store, Link::Old(v.right))?;
    let size = size_over(left.weight(), right.weight());
    let node = Numbered {
        number: n,
        node: resize(size, &v),
    };
    Ok(Weighed { node, left, right })
}

// On which side of a node with this left link the node n hangs.
fn towards(left: u16, n: u16) -> Lean
    ensures { result ≡ (if nat_eq left n then Left else Right) }
{
    if left == n { Lean::Left } else { Lean::Right }
}

// The link that leads to node n: the root link, or one of the lowest node of the path above n, on the side where n is. Put, drop and split
// know the side from their search: to share the reading would take the side by a closure, in a contract longer than these lines.
fn joint_of<S: Store>(store: &S, above: &[u16], n: u16) -> Result<Option<Joint<S::Key>>, StoreFault>
    ensures { result ≡ joint_at (S.Store.cells store.now) above.now n }
{
    let Some(&number) = above.last() else {
        return Ok(None);
    };
    let node = store.read(number as usize)?;
    let side = towards(node.left, n);
    let above = Numbered { number, node };
    Ok(Some(Joint { above, side }))
}

// Drafts the rotation of a pending node, for which the node itself leaves, with its new size.
fn plan_turn<S: Store>(
    store: &S,
    draft: &mut Draft<S::Key>,
    above: &[u16],
    w: &Weighed<S::Key>,
    lean: Lean,
) -> Result<Plan<S::Key>, StoreFault>
    requires { Fresh draft.old w.now }
    ensures value { turned_in draft.new result ≡ turned_at (S.Store.cells store.now) above.now (sized_by draft.old w.now) lean }
    ensures good { plan_good draft.new result }
{
    draft.leave(w.node);
    let top = draft.rotate(store, lean, w.node.node.region(), &w.left, &w.right)?;
    let joint = joint_of(store, above, w.node.number)?;
    Ok(Plan { top, joint })
}

impl Tree {
    // Rotates a node that was weighed; refused before anything is written where fewer than three nodes are free.
    fn turn<S: Store>(
        &mut self,
        store: &mut S,
        draft: &mut Draft<S::Key>,
        w: &Weighed<S::Key>,
        lean: Lean,
        sessions: u32,
    ) -> Result<(), Refusal>
        requires fresh { Fresh draft.old w.now }
        requires from { (n : ℕ) × (Ok (sized_by draft.old w.now) ≡ sized (S.Store.cells store.old) n) }
        ensures turns { TurnsInside (S.Store.cells store.old) (S.Store.cells store.new) self.old.root self.new.root result (λ ns. rotation (S.Store.cells store.old) (above (held self.old.path)) self.old.root sessions ns (sized_by draft.old w.now) lean) }
        ensures path { self.new.path ≡ self.old.path }
        ensures keeps { S.Store.fit store.old → S.Store.fit store.new }
    {
        let mut found = find_free(store, self.cursor, 3).during(Doing::Rotation)?;
        if found.len() < 3 {
            return Err(Refusal::Crowded);
        }
        let plan = plan_turn(store, draft, self.above(), w, lean).during(Doing::Rotation)?;
        self.cursor = found.end(self.cursor);
        let (joint, top) = (plan.joint, plan.top.link());
        commit(
            store,
            &mut self.root,
            joint,
            draft,
            top,
            &mut found,
            sessions,
        )
        .during(Doing::Rotation)?;
        Ok(())
    }

    // Writes a node that was weighed or, if a side of it is too heavy, links its rotation.
    fn treat<S: Store>(
        &mut self,
        store: &mut S,
        draft: &mut Draft<S::Key>,
        w: &Weighed<S::Key>,
        sessions: u32,
    ) -> Result<(), Refusal>
        requires fresh { Fresh draft.old w.now }
        requires from { (n : ℕ) × (Ok (sized_by draft.old w.now) ≡ sized (S.Store.cells store.old) n) }
        ensures turns { TurnsInside (S.Store.cells store.old) (S.Store.cells store.new) self.old.root self.new.root result (λ ns. treated (S.Store.cells store.old) (above (held self.old.path)) self.old.root sessions ns (sized_by draft.old w.now) (heavy_side (weight (seen_of draft.old w.now.left)) (weight (seen_of draft.old w.now.right)))) }
        ensures path { self.new.path ≡ self.old.path }
        ensures keeps { S.Store.fit store.old → S.Store.fit store.new }
    {
        match overweight(w.left.weight(), w.right.weight()) {
            Some(lean) => self.turn(store, draft, w, lean, sessions),
            None => {
                let Numbered { number, node } = &w.node;
                store.write(*number as usize, node).during(Doing::Rotation)?;
                Ok(())
            }
        }
    }

    // Treats the lowest pending node: sets its size from its sides and, if one of them is too heavy, links the rotation.
    // Answers how many nodes are still pending; after the root comes rest.
    pub fn advance<S: Store>(
        &mut self,
        store: &mut S,
        draft: &mut Draft<S::Key>,
        sessions: u32,
    ) -> Result<usize, Refusal>
        ensures edits { Edits (S.Store.cells store.old) (S.Store.cells store.new) (held self.old.path) (held self.new.path) self.old.root self.new.root result (λ ns. advanced (S.Store.cells store.old) (held self.old.path) self.old.root sessions ns) }
        ensures inside { EditsInside (S.Store.cells store.old) (S.Store.cells store.new) (held self.old.path) (held self.new.path) self.old.root self.new.root result (λ ns. advanced (S.Store.cells store.old) (held self.old.path) self.old.root sessions ns) }
        ensures keeps { S.Store.fit store.old → S.Store.fit store.new }
    {
        let n = self.path.last().ok_or(Refusal::Resting)?;
        draft.clear();
        let w = weigh_up(store, draft, n).during(Doing::Rotation)?;
        self.treat(store, draft, &w, sessions)?;
        self.path.pop();
        Ok(self.path.len())
    }
}
