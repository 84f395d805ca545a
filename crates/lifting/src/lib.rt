// What the edits draft, as trees: from the memory and the new nodes to the trees that they stand for. There is nothing to run here:
// each function stands for a theorem, which its contract names and its proof proves. The definitions are in specs/.
#![tactic(auto)]

ghost use Rattle.lifting.specs.Theorems.{SpelledStands, OffPath, Seeing, Reading, BalanceLifts, RotationLifts, WalkLifts, MergedLifts, PartedLifts};
ghost use Rattle.lifting.specs.Ways.{HolderDescends, OverlapDescends};
ghost use Rattle.runs.specs.Calls.{kind};

use keys::Key;

// What cells spell stands for the tree of its kept nodes, if none of them is pending.
pub fn spelled_stands<K>()
    ensures { SpelledStands K }
{}

// What is under a path has no node of the path.
pub fn off_path<R>()
    ensures { OffPath R }
{}

// A look at a tree shows it as it is.
pub fn seeing_is_true<K>()
    ensures { Seeing K }
{}

// A node that was read has the region and the sides that it stands for.
pub fn reading_is_true<K>()
    ensures { Reading K }
{}

// A new node over two sides, balanced.
pub fn balance_lifts<K>()
    ensures { BalanceLifts K 65535 }
{}

// A node that is out of balance, rotated.
pub fn rotation_lifts<K>()
    ensures { RotationLifts K 65535 }
{}

// The walk down a left edge, for drop and for split.
pub fn walk_lifts<K>()
    ensures { WalkLifts K }
{}

// Drop at a node with two sides.
pub fn merged_lifts<K>()
    ensures { MergedLifts K }
{}

// Split at a node.
pub fn parted_lifts<K>()
    ensures { PartedLifts K }
{}

// The search in the memory for the region that holds a key is the search in the tree.
pub fn holder_descends<K: Key>()
    ensures { HolderDescends (kind K.Ordered.fault K.Ordered.order K.Key.blank) 27 }
{}

// The search for what a region overlaps ends at a node exactly if there is such a region; else it goes down to where the region belongs.
pub fn overlap_descends<K: Key>()
    ensures { OverlapDescends (kind K.Ordered.fault K.Ordered.order K.Key.blank) 27 }
{}
