// The mathematics of the weight-balanced range tree. There is nothing to run here: each function
// stands for a theorem, which its contract names and its proof proves. The definitions are in specs/.
//
// K is any kind of keys with its order; R is any kind of regions, with a low and a high key each.
#![tactic(auto)]

ghost use Rattle.std.specs.Prelude.{ℕ};
ghost use Rattle.trees.specs.Broken.{CopyingUpBreaks, ShorteningBreaks, RelinkingBreaks};
ghost use Rattle.trees.specs.Regions.{ranges};
ghost use Rattle.trees.specs.Steps.{EveryStep};
ghost use Rattle.trees.specs.Theorems.{OneGiven, SetsKept, GivenAfter, FoundGiven, Descends, OverlapOnPath, EmptyStands, FewNew, OrderKept, Balances, BalancesAfter, Climbs, Low};

use keys::Ordered;

// A region set gives at most one region for a key.
pub fn set_gives_one<K: Ordered, R>()
    ensures { (low high : R → K) → OneGiven (ranges K.Ordered.fault K.Ordered.order low high) }
{}

// Put, drop and split leave a region set.
pub fn set_stays_one<K: Ordered, R>()
    ensures { (low high : R → K) → SetsKept (ranges K.Ordered.fault K.Ordered.order low high) }
{}

// What the set gives after put, drop and split, for every key.
pub fn set_gives_after<K: Ordered, R>()
    ensures { (low high : R → K) → GivenAfter (ranges K.Ordered.fault K.Ordered.order low high) }
{}

// A search in a tree that is in order finds what the region set gives.
pub fn search_finds<K: Ordered, R>()
    ensures { (low high : R → K) → FoundGiven (ranges K.Ordered.fault K.Ordered.order low high) }
{}

// The link where a search ends, the nodes above it and the tree under it.
pub fn search_goes_down<R>()
    ensures { Descends R }
{}

// A search for a region's low key meets what the region overlaps.
pub fn overlap_is_on_path<K: Ordered, R>()
    ensures { (low high : R → K) → OverlapOnPath (ranges K.Ordered.fault K.Ordered.order low high) }
{}

// Rotations keep the order.
pub fn balance_keeps_order<R>()
    ensures { OrderKept R }
{}

// The theorem of Hirai and Yamamoto for the factors 3 and 2: 3 more is what one insertion or one deletion can make.
pub fn balance_balances<R>()
    ensures { Balances R 3 }
{}

// The same, by the change: one region more or less.
pub fn balance_after_one<R>()
    ensures { BalancesAfter R 1 }
{}

// Neither bound can be relaxed: with 4 more, or two regions more or less, a tree out of balance may be left.
pub fn balance_bound_is_sharp()
    ensures { (Balances ℕ 4 → ⊥) × (BalancesAfter ℕ 2 → ⊥) }
{}

// Treating the pending nodes ends in a balanced tree.
pub fn advances_balance<R>()
    ensures { Climbs R }
{}

// A balanced tree is low.
pub fn balanced_is_low<R>()
    ensures { Low R 3968 27 }
{}

// The tree that a catalogue begins with.
pub fn empty_tree_stands<K: Ordered, R>()
    ensures { (low high : R → K) → EmptyStands (ranges K.Ordered.fault K.Ordered.order low high) }
{}

// Every edit, in all that is promised of it.
pub fn edits_step<K: Ordered, R>()
    ensures { (low high : R → K) → EveryStep (ranges K.Ordered.fault K.Ordered.order low high) }
{}

// An edit takes at most 1, 96 or 3 nodes.
pub fn edits_take_few<K: Ordered, R>()
    ensures { (low high : R → K) → FewNew (ranges K.Ordered.fault K.Ordered.order low high) }
{}

// A drop that copies the successor upward, and unlinks it later, takes a node off the path of its own key.
pub fn copying_up_breaks()
    ensures { CopyingUpBreaks }
{}

// A split as a shortened region and a later put leaves the upper keys uncovered between the two.
pub fn shortening_breaks()
    ensures { ShorteningBreaks }
{}

// A link changed in a node that has left leads a lookup to an answer that no moment gave.
pub fn relinking_breaks()
    ensures { RelinkingBreaks }
{}
