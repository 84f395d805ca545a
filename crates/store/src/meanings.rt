// What the stores here mean and what it takes for them to be fit, as theorems.
ghost use Rattle.store.specs.Meanings.{RecordStoreMeaning, GuardMeaning, ClosedAllFree};

use crate::guard::Guard;
use crate::interface::Store;
use crate::record::RecordStore;
use keys::Key;

// A record store closes no node, and is fit exactly if it has from 160 to 4,096 nodes.
pub fn record_store_meaning<'a, K: Key + 'a>()
    ensures { RecordStoreMeaning ⟦<RecordStore<'a, K> as Store>⟧.cells ⟦<RecordStore<'a, K> as Store>⟧.fit }
{}

// A guard closes what is closed below and what has mark 0, and is fit exactly if the store below is.
pub fn guard_meaning<K: Key, S: Store<Key = K>>()
    ensures { GuardMeaning ⟦<Guard<S> as Store>⟧.cells ⟦<Guard<S> as Store>⟧.fit S.Store.cells S.Store.fit }
{}

// A store that closes all its nodes can be fit only while all of them are free.
pub fn closing_all_is_unfit<K: Key>()
    ensures { ClosedAllFree K }
{}
