// The balance rule, and the rotations that it asks for; all of new nodes, one text for both directions.
ghost use Rattle.std.specs.Prelude.{◌≡◌, ◌+◌, ◌<◌, ◌≤◌, length};
ghost use Rattle.drafts.specs.Grown.{heavy_side, near, far, both_seen, single, lifted, raised, double, turned, turned_over, rotated, balanced};
ghost use Rattle.drafts.specs.Drafts.{Fine, Good, seen_of, parts_of, gone_of, both_good, both_told, Joins, Makes};

use crate::draft::Draft;
use crate::link::{Branch, Lean, Side};
use keys::Key;
use store::{Region, Store, StoreFault};

// Which of two sides is too heavy: the one with more than 3 times the weight of the other.
#[tactic(auto, unfolding(crate::specs::Grown::heavy_side))]
pub fn overweight(left: u32, right: u32) -> Option<Lean>
    ensures { result ≡ heavy_side left right }
{
    if 3 * u64::from(left) < u64::from(right) {
        return Some(Lean::Right);
    }
    if 3 * u64::from(right) < u64::from(left) {
        return Some(Lean::Left);
    }
    None
}

// A node out of balance: which of its sides is too heavy, its region, and its light side. The pieces of the heavy side (its region, its inner
// and its outer side) stay apart: a double rotation takes another piece for one of them on its way, so a struct of the three would be opened
// there and made anew.
#[derive(Clone, Copy)]
struct Tilt<K> {
    lean: Lean,
    region: Region<K>,
    light: Side<K>,
}

impl<K: Copy> Tilt<K> {
    fn new(lean: Lean, region: Region<K>, light: &Side<K>) -> Tilt<K>
        ensures lean { result.lean ≡ lean }
        ensures region { result.region ≡ region }
        ensures light { result.light ≡ light.now }
    {
        Tilt {
            lean,
            region,
            light: *light,
        }
    }

    // The single rotation: the heavy top rises, its near side changes over.
    fn turn_once(
        &self,
        draft: &mut Draft<K>,
        top: Region<K>,
        inner: &Side<K>,
        outer: &Side<K>,
    ) -> Side<K>
        requires room { length draft.old.made + 2 ≤ 96 }
        requires light { Good draft.old self.now.light }
        requires inner { Good draft.old inner.now }
        requires outer { Good draft.old outer.now }
        ensures { Joins 2 draft.old draft.new result (single self.now.lean self.now.region (seen_of draft.old self.now.light) top (seen_of draft.old inner.now) (seen_of draft.old outer.now)) }
    {
        let low = draft.join_by(self.lean, self.region, &self.light, inner);
        draft.join_by(self.lean, top, &low, outer)
    }

    // The three new nodes of a double rotation, from the four sides.
    fn lift(
        &self,
        draft: &mut Draft<K>,
        top: Region<K>,
        mid: Region<K>,
        inner: &Side<K>,
        other: &Side<K>,
        outer: &Side<K>,
    ) -> Side<K>
        requires room { length draft.old.made + 3 ≤ 96 }
        requires light { Good draft.old self.now.light }
        requires inner { Good draft.old inner.now }
        requires other { Good draft.old other.now }
        requires outer { Good draft.old outer.now }
        ensures { Joins 3 draft.old draft.new result (lifted self.now.lean self.now.region (seen_of draft.old self.now.light) top mid (seen_of draft.old inner.now) (seen_of draft.old other.now) (seen_of draft.old outer.now)) }
    {
        let low = draft.join_by(self.lean, self.region, &self.light, inner);
        let high = draft.join_by(self.lean, top, other, outer);
        draft.join_by(self.lean, mid, &low, &high)
    }
}

impl<K: Key> Tilt<K> {
    // The sides of a top: the near one, towards the light side, and the far one.
    fn sides<S: Store<Key = K>>(
        &self,
        store: &S,
        draft: &Draft<K>,
        top: &Branch<K>,
    ) -> Result<(Side<K>, Side<K>), StoreFault>
        requires left { Fine draft.now top.now.left }
        requires right { Fine draft.now top.now.right }
        ensures value { both_told draft.now result ≡ both_seen (S.Store.cells store.now) (near self.now.lean (parts_of draft.now top.now)) (far self.now.lean (parts_of draft.now top.now)) }
        ensures good { both_good draft.now result }
    {
        let near = top.link_on(self.lean.other());
        let far = top.link_on(self.lean);
        draft.see_both(store, near, far)
    }

    // The double rotation, once the near side's top was taken apart.
    fn raise<S: Store<Key = K>>(
        &self,
        store: &S,
        draft: &mut Draft<K>,
        top: Region<K>,
        mid: &Branch<K>,
        outer: &Side<K>,
    ) -> Result<Side<K>, StoreFault>
        requires room { length draft.old.made + 3 ≤ 96 }
        requires light { Good draft.old self.now.light }
        requires outer { Good draft.old outer.now }
        requires left { Fine draft.old mid.now.left }
        requires right { Fine draft.old mid.now.right }
        ensures { Makes 3 0 draft.old draft.new result (raised (S.Store.cells store.now) (gone_of draft.old) self.now.lean self.now.region (seen_of draft.old self.now.light) top (parts_of draft.old mid.now) (seen_of draft.old outer.now)) }
    {
        let (inner, other) = self.sides(store, draft, mid)?;
        Ok(self.lift(draft, top, mid.region, &inner, &other, outer))
    }

    // The double rotation.
    fn turn_twice<S: Store<Key = K>>(
        &self,
        store: &S,
        draft: &mut Draft<K>,
        top: Region<K>,
        inner: &Side<K>,
        outer: &Side<K>,
    ) -> Result<Side<K>, StoreFault>
        requires room { length draft.old.made + 3 ≤ 96 }
        requires out { length draft.old.gone < 96 }
        requires light { Good draft.old self.now.light }
        requires inner { Good draft.old inner.now }
        requires outer { Good draft.old outer.now }
        ensures { Makes 3 1 draft.old draft.new result (double (S.Store.cells store.now) (gone_of draft.old) self.now.lean self.now.region (seen_of draft.old self.now.light) top (seen_of draft.old inner.now) (seen_of draft.old outer.now)) }
    {
        match draft.take_apart(inner) {
            None => Ok(self.turn_once(draft, top, inner, outer)),
            Some(mid) => self.raise(store, draft, top, &mid, outer),
        }
    }

    // The rotation, once the heavy top was taken apart: single if the near side weighs less than twice the far one.
    fn turn_over<S: Store<Key = K>>(
        &self,
        store: &S,
        draft: &mut Draft<K>,
        top: &Branch<K>,
    ) -> Result<Side<K>, StoreFault>
        requires room { length draft.old.made + 3 ≤ 96 }
        requires out { length draft.old.gone < 96 }
        requires light { Good draft.old self.now.light }
        requires left { Fine draft.old top.now.left }
        requires right { Fine draft.old top.now.right }
        ensures { Makes 3 1 draft.old draft.new result (turned_over (S.Store.cells store.now) (gone_of draft.old) self.now.lean self.now.region (seen_of draft.old self.now.light) (parts_of draft.old top.now)) }
    {
        let (inner, outer) = self.sides(store, draft, top)?;
        if inner.weight() < 2 * outer.weight() {
            return Ok(self.turn_once(draft, top.region, &inner, &outer));
        }
        self.turn_twice(store, draft, top.region, &inner, &outer)
    }

    // The rotation of the light and a heavy side.
    fn turn<S: Store<Key = K>>(
        &self,
        store: &S,
        draft: &mut Draft<K>,
        heavy: &Side<K>,
    ) -> Result<Side<K>, StoreFault>
        requires room { length draft.old.made + 3 ≤ 96 }
        requires out { length draft.old.gone + 2 ≤ 96 }
        requires light { Good draft.old self.now.light }
        requires heavy { Good draft.old heavy.now }
        ensures { Makes 3 2 draft.old draft.new result (turned (S.Store.cells store.now) (gone_of draft.old) self.now.lean self.now.region (seen_of draft.old self.now.light) (seen_of draft.old heavy.now)) }
    {
        match draft.take_apart(heavy) {
            None => Ok(draft.join_by(self.lean, self.region, &self.light, heavy)),
            Some(top) => self.turn_over(store, draft, &top),
        }
    }
}

impl<K: Key> Draft<K> {
    // The rotation over two sides, of which the one named is too heavy.
    #[tactic(auto, unfolding(crate::specs::Grown::rotated))]
    pub fn rotate<S: Store<Key = K>>(
        &mut self,
        store: &S,
        lean: Lean,
        region: Region<K>,
        left: &Side<K>,
        right: &Side<K>,
    ) -> Result<Side<K>, StoreFault>
        requires room { length self.old.made + 3 ≤ 96 }
        requires out { length self.old.gone + 2 ≤ 96 }
        requires left { Good self.old left.now }
        requires right { Good self.old right.now }
        ensures { Makes 3 2 self.old self.new result (rotated (S.Store.cells store.now) (gone_of self.old) lean region (seen_of self.old left.now) (seen_of self.old right.now)) }
    {
        match lean {
            Lean::Right => Tilt::new(lean, region, left).turn(store, self, right),
            Lean::Left => Tilt::new(lean, region, right).turn(store, self, left),
        }
    }

    // A new node over two sides, rotated where one of them is too heavy.
    pub fn balance<S: Store<Key = K>>(
        &mut self,
        store: &S,
        region: Region<K>,
        left: &Side<K>,
        right: &Side<K>,
    ) -> Result<Side<K>, StoreFault>
        requires room { length self.old.made + 3 ≤ 96 }
        requires out { length self.old.gone + 2 ≤ 96 }
        requires left { Good self.old left.now }
        requires right { Good self.old right.now }
        ensures { Makes 3 2 self.old self.new result (balanced (S.Store.cells store.now) (gone_of self.old) region (seen_of self.old left.now) (seen_of self.old right.now)) }
    {
        match overweight(left.weight(), right.weight()) {
            None => Ok(self.join(region, left, right)),
            Some(lean) => self.rotate(store, lean, region, left, right),
        }
    }
}
