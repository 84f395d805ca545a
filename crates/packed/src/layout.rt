// A node as bytes: mark, left, right, size, rows, waits, low, high, each number highest byte first.
ghost use Rattle.std.specs.Prelude.{◌≡◌, ◌^◌, ◌<◌, length, if◌then◌else◌, Some, None};
ghost use Rattle.store.specs.declared.node.Node.{Node};
ghost use Rattle.packed.specs.Layout.{node_width, head_bytes, node_bytes, node_of, node_long, unpacked, Packs, pack_answer, packed_over, addressable};

use keys::{Key, bytes_at};
use store::Node;

// The bytes before the keys.
const HEAD: usize = 19;

// How many bytes a node has; none where that is more than memory can have.
pub(crate) fn node_width<K: Key>() -> Option<usize>
    ensures { result ≡ addressable (node_width K.Key.wide) }
{
    let keys = K::width().checked_mul(2)?;
    keys.checked_add(HEAD)
}

// The node of as many bytes as a node has; its bytes are these again.
pub(crate) fn decode<K: Key>(from: &[u8]) -> Node<K>
    requires { length from.now ≡ node_width K.Key.wide }
    ensures value { result ≡ node_of K.Key.own from.now }
    ensures again { node_bytes K.Key.own result ≡ from.now }
{
    let width = K::width();
    let low = K::read_body(&from[HEAD..HEAD + width]);
    let high = K::read_body(&from[HEAD + width..HEAD + 2 * width]);
    Node {
        mark: from[0],
        left: u16::from_be_bytes(bytes_at(from, 1)),
        right: u16::from_be_bytes(bytes_at(from, 3)),
        size: u16::from_be_bytes(bytes_at(from, 5)),
        rows: u64::from_be_bytes(bytes_at(from, 7)),
        waits: u32::from_be_bytes(bytes_at(from, 15)),
        low,
        high,
    }
}

// The bytes before the keys. It takes the numbers one by one: that they fit is known of parameters, and was not proved of
// the fields of a node behind a reference.
fn head(mark: u8, left: u16, right: u16, size: u16, rows: u64, waits: u32) -> [u8; HEAD]
    ensures value { result ≡ head_bytes mark left right size rows waits }
    ensures fits { (left < 2 ^ 16) × (right < 2 ^ 16) × (size < 2 ^ 16) × (rows < 2 ^ 64) × (waits < 2 ^ 32) }
{
    let mut out = [0; HEAD];
    out[0] = mark;
    out[1..3].copy_from_slice(&left.to_be_bytes());
    out[3..5].copy_from_slice(&right.to_be_bytes());
    out[5..7].copy_from_slice(&size.to_be_bytes());
    out[7..15].copy_from_slice(&rows.to_be_bytes());
    out[15..HEAD].copy_from_slice(&waits.to_be_bytes());
    out
}

// Writes the bytes of a node over as many; the node can be read back from them.
pub(crate) fn encode<K: Key>(node: &Node<K>, out: &mut [u8])
    requires { length out.old ≡ node_width K.Key.wide }
    ensures written { out.new ≡ node_bytes K.Key.own node.now }
    ensures sized { length (node_bytes K.Key.own node.now) ≡ node_width K.Key.wide }
    ensures back { node_of K.Key.own (node_bytes K.Key.own node.now) ≡ node.now }
{
    let width = K::width();
    let bytes = head(
        node.mark, node.left, node.right, node.size, node.rows, node.waits,
    );
    let front = &mut out[0..HEAD];
    front.copy_from_slice(&bytes);
    node.low.write_body(&mut out[HEAD..HEAD + width]);
    node.high
        .write_body(&mut out[HEAD + width..HEAD + 2 * width]);
}

// Writes the bytes of a node over `out`; none, and nothing written, if `out` is not as long as a node: the one thing
// that can be wrong, so there is no error to name.
pub fn pack<K: Key>(node: &Node<K>, out: &mut [u8]) -> Option<()>
    ensures value { result ≡ pack_answer K.Key.own out.old }
    ensures after { out.new ≡ packed_over K.Key.own node.now out.old }
    ensures back { result ≡ Some tt → Packs K.Key.own node.now }
{
    if node_width::<K>()? != out.len() {
        return None;
    }
    encode(node, out);
    Some(())
}

// The node that the bytes are of; none if they are not as many as a node has.
pub fn unpack<K: Key>(from: &[u8]) -> Option<Node<K>>
    ensures value { result ≡ unpacked K.Key.own from.now }
    ensures again { (v : Node K) → result ≡ Some v → node_bytes K.Key.own v ≡ from.now }
{
    if node_width::<K>()? != from.len() {
        return None;
    }
    Some(decode(from))
}

// Both ways: the node to bytes and back, and the bytes to a node and back. The node comes back, and the bytes are as they were;
// none if the bytes are not as many as a node has.
pub fn both_ways<K: Key>(node: &Node<K>, bytes: &mut [u8]) -> Option<Node<K>>
    ensures value { result ≡ (if node_long K.Key.own bytes.old then Some node.now else None) }
    ensures same { bytes.new ≡ bytes.old }
{
    let held = unpack::<K>(bytes)?;
    pack(node, bytes)?;
    let back = unpack::<K>(bytes)?;
    pack(&held, bytes)?;
    Some(back)
}
