// The copying walk down the left edge of a side, and what drop and split draft by it. Free functions over a store and a draft: a draft has its
// methods in its own crate, and a struct that lent both would stand in every clause here. Where a draft has to be empty, it is asked: the same
// draft is filled afterwards, so no type of it could say so.
ghost use Rattle.std.specs.Prelude.{◌≡◌, ◌+◌, ◌*◌, ◌≤◌, [], length, Ok};
ghost use Rattle.store.specs.Nodes.{link_number};
ghost use Rattle.drafts.specs.Grown.{tree};
ghost use Rattle.drafts.specs.Drafts.{tree_of, Fine, gone_of, Makes, built_told, good_told};
ghost use Rattle.walks.specs.Walks.{sprout, edge_end, walked, merged, grown_by, parted};
ghost use Rattle.walks.specs.Outcomes.{next_down, topped, copied, Grafts, Walks};

use drafts::{Draft, Link, Numbered, Side};
use search::DEEPEST;
use store::{Node, Region, Store, StoreFault, linked};

// How many more nodes a left edge below the first has at most: a tree at rest is at most 27 nodes high.
const BELOW_FIRST: u8 = DEEPEST as u8 - 1;

// A new node over what two links lead to, rotated where one of them is too heavy.
fn top_over<S: Store>(
    store: &S,
    draft: &mut Draft<S::Key>,
    region: Region<S::Key>,
    left: Link,
    right: Link,
) -> Result<Side<S::Key>, StoreFault>
    requires room { length draft.old.made + 3 ≤ 96 }
    requires out { length draft.old.gone + 2 ≤ 96 }
    requires left { Fine draft.old left }
    requires right { Fine draft.old right }
    ensures { Makes 3 2 draft.old draft.new result (topped (S.Store.cells store.now) (gone_of draft.old) region (tree_of draft.old left) (tree_of draft.old right)) }
{
    let (left, right) = draft.see_both(store, left, right)?;
    draft.balance(store, region, &left, &right)
}

// A copy of a node over a new left side, balanced.
fn copy_over<S: Store>(
    store: &S,
    draft: &mut Draft<S::Key>,
    v: &Node<S::Key>,
    left: Link,
) -> Result<Link, StoreFault>
    requires room { length draft.old.made + 3 ≤ 96 }
    requires out { length draft.old.gone + 2 ≤ 96 }
    requires left { Fine draft.old left }
    ensures { Grafts 3 2 draft.old draft.new result (copied (S.Store.cells store.now) (gone_of draft.old) v.now (tree_of draft.old left)) }
{
    let top = top_over(store, draft, v.region(), left, Link::Old(v.right))?;
    Ok(top.link())
}

// A new node with no sides.
fn plant<K: Copy>(draft: &mut Draft<K>, region: Region<K>) -> Link
    requires { length draft.old.made + 1 ≤ 96 }
    ensures { Grafts 1 0 draft.old draft.new (Ok result) (Ok (record { side = tree (sprout region); gone = gone_of draft.old })) }
{
    draft.join(region, &Side::Empty, &Side::Empty).link()
}

// What stands in place of the lowest node v of the edge: a copy of it over the region that is added, or its right side alone.
fn end_edge<S: Store>(
    store: &S,
    draft: &mut Draft<S::Key>,
    added: Option<Region<S::Key>>,
    v: &Node<S::Key>,
) -> Result<Link, StoreFault>
    requires room { length draft.old.made + 4 ≤ 96 }
    requires out { length draft.old.gone + 2 ≤ 96 }
    ensures { Grafts 4 2 draft.old draft.new result (edge_end (S.Store.cells store.now) (gone_of draft.old) added v.now) }
{
    match added {
        None => Ok(Link::Old(v.right)),
        Some(region) => {
            let left = plant(draft, region);
            copy_over(store, draft, v, left)
        }
    }
}

// The next node down a left edge; none where no more nodes count.
fn next_down(depth: u8, left: u16) -> Option<u16>
    ensures { result ≡ next_down depth left }
{
    if depth == 0 { None } else { linked(left) }
}

// The walk from node n down its left edge, through at most as many more nodes as the depth: each node of the edge leaves, and what stands
// in its place is built on the way back up. The lowest node is cut off or, where a region is added, is copied over a new node with it.
// Answers the lowest node's number and the new side.
fn walk<S: Store>(
    store: &S,
    draft: &mut Draft<S::Key>,
    added: Option<Region<S::Key>>,
    n: u16,
    depth: u8,
) -> Result<(u16, Link), StoreFault>
    requires room { length draft.old.made + (3 * depth + 4) ≤ 96 }
    requires out { length draft.old.gone + (3 * depth + 3) ≤ 96 }
    ensures { Walks (3 * depth + 4) (3 * depth + 3) draft.old draft.new result (walked depth (S.Store.cells store.now) added (gone_of draft.old) n) }
{
    let v = store.read(n as usize)?;
    draft.leave(Numbered { number: n, node: v });
    match next_down(depth, v.left) {
        None => {
            let end = end_edge(store, draft, added, &v)?;
            Ok((n, end))
        }
        Some(m) => {
            let (least, left) = walk(store, draft, added, m, depth - 1)?;
            let side = copy_over(store, draft, &v, left)?;
            Ok((least, side))
        }
    }
}

// A side with a region added as its least.
fn grow_by<S: Store>(
    store: &S,
    draft: &mut Draft<S::Key>,
    region: Region<S::Key>,
    link: u16,
) -> Result<Link, StoreFault>
    requires room { length draft.old.made + 82 ≤ 96 }
    requires out { length draft.old.gone + 81 ≤ 96 }
    ensures { Grafts 82 81 draft.old draft.new result (grown_by (S.Store.cells store.now) (gone_of draft.old) region (link_number link)) }
{
    match linked(link) {
        None => Ok(plant(draft, region)),
        Some(n) => {
            let (_, side) = walk(store, draft, Some(region), n, BELOW_FIRST)?;
            Ok(side)
        }
    }
}

// Drafts a drop of a node with both sides, in an empty draft: the region of the least node of the right side rises, over the left side and
// the right side without it.
pub fn merge<S: Store>(
    store: &S,
    draft: &mut Draft<S::Key>,
    p: &Numbered<S::Key>,
) -> Result<Side<S::Key>, StoreFault>
    requires made { draft.old.made ≡ [] }
    requires gone { gone_of draft.old ≡ [] }
    ensures value { built_told draft.new result ≡ merged (S.Store.cells store.now) p.now }
    ensures good { good_told draft.new result }
{
    draft.leave(*p);
    let (least, rest) = walk(store, draft, None, p.node.right, BELOW_FIRST)?;
    let v = store.read(least as usize)?;
    top_over(store, draft, v.region(), Link::Old(p.node.left), rest)
}

// Drafts a split, in an empty draft: the lower part over the left side and the right side with the upper part as its least.
pub fn part<S: Store>(
    store: &S,
    draft: &mut Draft<S::Key>,
    p: &Numbered<S::Key>,
    lower: Region<S::Key>,
    upper: Region<S::Key>,
) -> Result<Side<S::Key>, StoreFault>
    requires made { draft.old.made ≡ [] }
    requires gone { gone_of draft.old ≡ [] }
    ensures value { built_told draft.new result ≡ parted (S.Store.cells store.now) p.now lower upper }
    ensures good { good_told draft.new result }
{
    draft.leave(*p);
    let right = grow_by(store, draft, upper, p.node.right)?;
    top_over(store, draft, lower, Link::Old(p.node.left), right)
}
