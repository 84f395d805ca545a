// The example of docs: a node in the tree as bytes, and a guarded byte store with two nodes and a byte left over.
use crate::{ByteStore, pack};
use keys::Whole;
use std::test::Fail;
use store::{Guard, LIVE, Node, Store};

const EXAMPLE: [u8; 35] = [
    1, 0, 5, 0, 6, 0, 3, 0, 0, 0, 0, 0, 0, 3, 0xe8, 0, 0, 0, 0, 0xff, 0xff, 0xff, 0xff, 0xff, 0xff,
    0xff, 0xfe, 0, 0, 0, 0, 0, 0, 1, 2,
];

fn example() -> Node<Whole> {
    Node {
        mark: LIVE,
        left: 5,
        right: 6,
        size: 3,
        rows: 1000,
        waits: 0,
        low: Whole(-2),
        high: Whole(258),
    }
}

#[test]
fn packs_as_shown(rt: HostRuntime) -> Result<(), Fail> {
    let mut out = [0; 35];
    pack(&example(), &mut out).ok_or("not as long as a node")?;
    assert_eq!(rt; out, EXAMPLE);
    Ok(())
}

#[test]
fn guards_bytes(rt: HostRuntime) -> Result<(), Fail> {
    let mut bytes = [0; 71];
    let mut store = Guard::new(ByteStore::<Whole>::new(&mut bytes));
    assert_eq!(rt; store.count(), 2);
    assert!(rt; store.read(2).is_err());
    assert!(rt; store.read(3).is_err());
    store.write(2, &example())?;
    assert_eq!(rt; store.read(2)?.rows, 1000);
    assert_eq!(rt; store.mark(1)?, 0);
    Ok(())
}
