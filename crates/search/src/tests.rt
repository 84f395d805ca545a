// Paths and found numbers are values: a host passes them, and structs of its own that hold them, by value, and uses them again. The toolchain
// proves that of no `Copy` struct that holds one with an `impl Model`: `twice` and `twice_found` are lost where a path gets one.
ghost use Rattle.std.specs.Prelude.{◌≡◌, ◌≤◌};

use crate::{Found, Path, find_free};
use keys::Whole;
use std::test::Fail;
use store::{FREE, Node, RecordStore};

// What a host might keep of a search.
#[derive(Clone, Copy)]
struct Way {
    path: Path,
    link: u16,
}

fn same(way: Way) -> Way
    ensures { result ≡ way }
{
    way
}

fn twice(way: Way) -> (Way, Way)
    ensures { (result.0 ≡ way) × (result.1 ≡ way) }
{
    let one = same(way);
    (one, way)
}

fn same_found(found: Found) -> Found
    ensures { result ≡ found }
{
    found
}

fn twice_found(found: Found) -> (Found, Found)
    ensures { (result.0 ≡ found) × (result.1 ≡ found) }
{
    let one = same_found(found);
    (one, found)
}

// As many as are wanted of the ten nodes of a pool.
fn search(want: usize) -> Result<Found, Fail>
    requires { want ≤ 96 }
{
    let mut nodes = [Node::plain(FREE, Whole(0), Whole(0)); 42];
    let found = find_free(&RecordStore::new(&mut nodes), 0, want)?;
    Ok(found)
}

#[test]
fn copies_are_the_same(rt: HostRuntime) -> Result<(), Fail> {
    let (one, other) = twice_found(search(11)?);
    assert_eq!(rt; one.len(), 10);
    assert_eq!(rt; other.len(), 10);
    Ok(())
}

#[test]
fn copies_go_their_own_way(rt: HostRuntime) -> Result<(), Fail> {
    let mut path = Path::new();
    path.push(33);
    let (mut one, other) = twice(Way { path, link: 34 });
    one.path.push(34);
    assert_eq!(rt; one.path.last(), Some(34));
    assert_eq!(rt; other.path.last(), Some(33));
    assert_eq!(rt; other.link, 34);
    Ok(())
}
