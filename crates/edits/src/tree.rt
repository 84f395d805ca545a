// What a catalogue knows of its tree beside the nodes. The store, the draft and the open sessions, which come along in every edit, are not
// in it: the store is the host's, generic code cannot own a draft, and the sessions are told by rows that know nothing of trees.
ghost use Rattle.std.specs.Prelude.{◌≡◌, []};
ghost use Rattle.stacks.specs.Held.{held};
ghost use Rattle.search.specs.Paths.{above};

use search::Path;

// The root link, the pending nodes, and where the next search for free nodes begins.
#[derive(Drop)]
pub struct Tree {
    pub root: u16,
    pub path: Path,
    pub cursor: u16,
}

impl Tree {
    // At rest: no node is pending.
    pub fn new(root: u16, cursor: u16) -> Tree
        ensures root { result.root ≡ root }
        ensures path { held result.path ≡ [] }
        ensures cursor { result.cursor ≡ cursor }
    {
        Tree {
            root,
            path: Path::new(),
            cursor,
        }
    }

    // The pending nodes above the lowest.
    pub(crate) fn above(&self) -> &[u16]
        ensures { result.now ≡ above (held self.now.path) }
    {
        match self.path.as_slice() {
            [above @ .., _] => above,
            [] => &[],
        }
    }
}
