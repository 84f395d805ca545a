// That the promise says what it should, as theorems.
ghost use Rattle.runs.specs.Calls.{kind, regions};
ghost use Rattle.runs.specs.Examples.{PrintedReads, ReopenedReads, UntrueFail};
ghost use Rattle.runs.specs.Renamings.{EditsRename, KeptRenames};
ghost use Rattle.runs.specs.Teeth.{OneTree, PlaceIsEnough, OneRefusal, MakingKeeps, FirstPutCanKeep, CheatsFail, ThirteenIsTrue, SecondPutLeaves};

use keys::Key;

// What follows from the printed example's history at each moment; from one with a session opened again; and answers that are not true.
pub fn examples_stand()
    ensures printed { PrintedReads }
    ensures reopened { ReopenedReads }
    ensures untrue { UntrueFail }
{}

// A catalogue just made over a fit store meets the whole promise.
pub fn making_keeps<K: Key>()
    ensures { MakingKeeps (kind K.Ordered.fault K.Ordered.order K.Key.blank) }
{}

// It can be met after a call too: the first put of a proper region.
pub fn first_put_can_keep<K: Key>()
    ensures { FirstPutCanKeep (kind K.Ordered.fault K.Ordered.order K.Key.blank) }
{}

// The promise speaks of one tree: a state has no other, and it has just the nodes that links lead to.
pub fn tree_is_one<K: Key>()
    ensures { OneTree K }
{}

// The pending nodes of a state say all that a call depends on.
pub fn place_is_enough<K: Key>()
    ensures { PlaceIsEnough (kind K.Ordered.fault K.Ordered.order K.Key.blank) }
{}

// The table tells one refusal.
pub fn refusal_is_one<K: Key>()
    ensures { OneRefusal (kind K.Ordered.fault K.Ordered.order K.Key.blank) }
{}

// What a licensee is safe from: each of these is refuted by a clause of the promise.
pub fn cheats_fail<K: Key>()
    ensures { CheatsFail (kind K.Ordered.fault K.Ordered.order K.Key.blank) }
{}

// Refusal 13 is told only where fewer than 96 nodes are free, and at a put only where none is.
pub fn thirteen_is_true<K: Key>()
    ensures { ThirteenIsTrue (kind K.Ordered.fault K.Ordered.order K.Key.blank) 96 1 }
{}

// An edit is not over in its first call where it has a node to treat: the second put of the printed example leaves one pending.
pub fn second_put_leaves_one()
    ensures { SecondPutLeaves 1 }
{}

// What an edit makes of a tree does not depend on the numbers of its nodes.
pub fn edits_rename<K: Key>()
    ensures { EditsRename (regions (kind K.Ordered.fault K.Ordered.order K.Key.blank)) }
{}

// What is promised at a moment of a run is promised of the same run with other numbers for its nodes.
pub fn kept_renames<K: Key>()
    ensures { KeptRenames (kind K.Ordered.fault K.Ordered.order K.Key.blank) }
{}
