// The byte store: nodes packed into bytes that the host lends. It closes no node.
ghost use Rattle.std.specs.Prelude.{◌≡◌, ◌/◌, ◌<◌, ◌≤◌, length, IfOk};
ghost use Rattle.store.specs.Cells.{mark_answer, read_answer, write_answer, Written};
ghost use Rattle.store.specs.Fits.{InRange, readable_fit};
ghost use Rattle.packed.specs.Layout.{node_width};
ghost use Rattle.packed.specs.Rooms.{byte_cells, byte_nodes, room_answer, bytes_after, left_over};

use crate::layout::{decode, encode, node_width};
use keys::Key;
use std::marker::PhantomData;
use std::ops::Range;
use store::{Cause, Function, Node, Store, StoreFault, index_of};

// How many nodes there are: as many as fit, and bytes left over belong to none.
fn count_in<K: Key>(bytes: &[u8]) -> usize
    ensures { result ≡ length bytes.now / node_width K.Key.wide }
{
    node_width::<K>().map_or(0, |width| bytes.len() / width)
}

// Where node n lies in `len` bytes.
fn room_of<K: Key>(function: Function, n: usize, len: usize) -> Result<Range<usize>, StoreFault>
    ensures value { result ≡ room_answer function n len (node_width K.Key.wide) }
    ensures within { IfOk result (λ room. (room.start < room.end) × (room.end ≤ len)) }
{
    // Where a width is none, one node alone would be more than memory can have.
    let width = node_width::<K>().ok_or(StoreFault {
        function,
        node: n,
        cause: Cause::Outside,
    })?;
    let i = index_of(function, n, len / width)?;
    let from = i * width;
    Ok(from..from + width)
}

// These three stand beside the methods, which hand them the slice: a rule of the project prescribes it.
fn mark_at<K: Key>(bytes: &[u8], n: usize) -> Result<u8, StoreFault>
    ensures { result ≡ mark_answer (byte_cells K.Key.own bytes.now) n }
{
    let room = room_of::<K>(Function::Mark, n, bytes.len())?;
    Ok(bytes[room.start])
}

fn read_at<K: Key>(bytes: &[u8], n: usize) -> Result<Node<K>, StoreFault>
    ensures { result ≡ read_answer (byte_cells K.Key.own bytes.now) n }
{
    let room = room_of::<K>(Function::Read, n, bytes.len())?;
    Ok(decode(&bytes[room]))
}

fn write_at<K: Key>(bytes: &mut [u8], n: usize, v: &Node<K>) -> Result<(), StoreFault>
    ensures value { result ≡ write_answer (byte_cells K.Key.own bytes.old) n }
    ensures after { Written (byte_cells K.Key.own bytes.old) n v.now (byte_cells K.Key.own bytes.new) }
    ensures bytes { bytes.new ≡ bytes_after K.Key.own bytes.old n v.now }
    ensures rest { left_over K.Key.own bytes.new ≡ left_over K.Key.own bytes.old }
{
    let room = room_of::<K>(Function::Write, n, bytes.len())?;
    encode(v, &mut bytes[room]);
    Ok(())
}

#[derive(Drop)]
pub struct ByteStore<'a, K> {
    bytes: &'a mut [u8],
    kind: PhantomData<K>,
}

impl<'a, K> ByteStore<'a, K> {
    pub fn new(bytes: &'a mut [u8]) -> ByteStore<'a, K>
        ensures { result.bytes.now ≡ bytes.old }
    {
        ByteStore {
            bytes,
            kind: PhantomData,
        }
    }
}

impl<'a, K: Key> Store for ByteStore<'a, K> {
    type Key = K;

    ghost cells = { λ s. byte_cells K.Key.own s.bytes.now };

    ghost fit = { λ s. InRange (length (byte_nodes K.Key.own s.bytes.now)) };

    ghost lawful = { λ s f. readable_fit (byte_nodes K.Key.own s.bytes.now) f };

    fn count(&self) -> usize {
        count_in::<K>(self.bytes)
    }

    fn mark(&self, n: usize) -> Result<u8, StoreFault> {
        mark_at::<K>(self.bytes, n)
    }

    fn read(&self, n: usize) -> Result<Node<K>, StoreFault> {
        read_at::<K>(self.bytes, n)
    }

    // Besides what every store's write says: the bytes after it, and that those left over are as they were.
    fn write(&mut self, n: usize, v: &Node<K>) -> Result<(), StoreFault>
        ensures value { result ≡ write_answer (byte_cells K.Key.own self.old.bytes.now) n }
        ensures after { Written (byte_cells K.Key.own self.old.bytes.now) n v.now (byte_cells K.Key.own self.new.bytes.now) }
        ensures keeps { InRange (length (byte_nodes K.Key.own self.old.bytes.now)) → InRange (length (byte_nodes K.Key.own self.new.bytes.now)) }
        ensures bytes { self.new.bytes.now ≡ bytes_after K.Key.own self.old.bytes.now n v.now }
        ensures rest { left_over K.Key.own self.new.bytes.now ≡ left_over K.Key.own self.old.bytes.now }
    {
        write_at(self.bytes, n, v)
    }
}
