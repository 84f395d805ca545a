// What a byte store means, as theorems.
ghost use Rattle.packed.specs.Meanings.{ByteStoreMeaning, SameMeaning};

use crate::packing::ByteStore;
use keys::Key;
use store::Store;

// A byte store closes no node, and is fit exactly if it has from 160 to 4,096 nodes.
pub fn byte_store_meaning<'a, K: Key + 'a>()
    ensures { ByteStoreMeaning K.Key.own ⟦<ByteStore<'a, K> as Store>⟧.cells ⟦<ByteStore<'a, K> as Store>⟧.fit }
{}

// The same writes on a byte store and on a record store whose cells agree leave cells that agree.
pub fn same_meaning<K: Key>()
    ensures { SameMeaning K.Key.own }
{}
