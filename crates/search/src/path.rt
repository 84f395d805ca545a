// The path of an edit: the nodes on the way down, the lowest on top.
use stacks::Numbers;

// No tree at rest is deeper.
pub const DEEPEST: usize = 27;

pub type Path = Numbers<DEEPEST>;
