// The same writes on a byte store and on a record store, done in code.
ghost use Rattle.std.specs.Prelude.{◌≡◌};
ghost use Rattle.store.specs.Cells.{all_readable, nodes_after};
ghost use Rattle.packed.specs.Rooms.{byte_cells, bytes_after};
ghost use Rattle.packed.specs.Meanings.{run};

use crate::packing::ByteStore;
use keys::Key;
use store::{Node, RecordStore, Store};

// Makes the same writes, in turn, to both; where their cells agree, they agree afterwards.
pub fn write_both<K: Key>(
    bytes: &mut ByteStore<'_, K>,
    records: &mut RecordStore<'_, K>,
    writes: &[(usize, Node<K>)],
)
    ensures bytes { bytes.new.bytes.now ≡ run (bytes_after K.Key.own) bytes.old.bytes.now writes.now }
    ensures nodes { records.new.nodes.now ≡ run nodes_after records.old.nodes.now writes.now }
    ensures agree { byte_cells K.Key.own bytes.old.bytes.now ≡ all_readable records.old.nodes.now → byte_cells K.Key.own bytes.new.bytes.now ≡ all_readable records.new.nodes.now }
{
    for (n, node) in writes {
        let _ = bytes.write(*n, node);
        let _ = records.write(*n, node);
    }
}
