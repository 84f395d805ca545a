// What advance makes of the lowest pending node, as the tree functions say it. There is nothing to run here: each function stands for
// a theorem, which its contract names and its proof proves. The definitions are in specs/.
#![tactic(auto)]

ghost use Rattle.advances.specs.Advances.{JointFound, AdvanceLifts};

// The link to a node is found from the nodes above it.
pub fn joint_is_found<K>()
    ensures { JointFound K }
{}

// Advance sizes the lowest pending node or rotates it, as the tree function says.
pub fn advance_lifts<K>()
    ensures { AdvanceLifts K 65535 }
{}
