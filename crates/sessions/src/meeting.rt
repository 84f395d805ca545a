// What a lookup meets at its place.
ghost use Rattle.std.specs.Prelude.{◌≡◌};
ghost use Rattle.store.specs.Nodes.{link_number};
ghost use Rattle.sessions.specs.Ways.{way_of};
ghost use Rattle.sessions.specs.Lookups.{met_link, met_by, met_at};

use crate::way::{Way, way_at};
use store::{Node, Region, Store, StoreFault, linked};

#[derive(Clone, Copy, PartialEq, Eq, Debug)]
pub enum Met<K> {
    // No node: no region holds the key.
    Blank,
    // A node whose region holds the key.
    Holds(Region<K>),
    // A node that leads on to another.
    Leads(u16),
}

fn met_link<K: Copy>(link: u16) -> Met<K>
    ensures { result ≡ met_link link }
{
    match linked(link) {
        None => Met::Blank,
        Some(n) => Met::Leads(n),
    }
}

fn met_by<K: Copy>(way: Way, node: &Node<K>) -> Met<K>
    ensures { result ≡ met_by way node.now }
{
    match way {
        Way::Left => met_link(node.left),
        Way::Here => Met::Holds(node.region()),
        Way::Right => met_link(node.right),
    }
}

// No node at place 0; else by the key in the seat, and the node.
pub fn met_at<S: Store>(store: &S, seat: usize, place: u16) -> Result<Met<S::Key>, StoreFault>
    ensures { result ≡ met_at (way_of S.Key.Ordered.fault S.Key.Ordered.order) (S.Store.cells store.now) seat (link_number place) }
{
    match linked(place) {
        None => Ok(Met::Blank),
        Some(n) => {
            let own = store.read(seat)?;
            let node = store.read(n as usize)?;
            Ok(met_by(way_at(&own.low, &node.low, &node.high), &node))
        }
    }
}
