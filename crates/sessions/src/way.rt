// What a search does at one node.
ghost use Rattle.std.specs.Prelude.{◌≡◌};
ghost use Rattle.sessions.specs.Ways.{way_of};

use keys::Ordered;
use std::cmp::Ordering;

// Where a search for a key goes at a node.
#[derive(Clone, Copy, PartialEq, Eq, Debug)]
pub enum Way {
    Left,
    Here,
    Right,
}

// Left if the key is below low, here if the region from low to high holds it, else right.
#[tactic(auto, unfolding(crate::specs::Ways::way_of))]
pub fn way_at<K: Ordered>(key: &K, low: &K, high: &K) -> Way
    ensures { result ≡ way_of K.Ordered.fault K.Ordered.order key.now low.now high.now }
{
    match key.compare(low) {
        Ok(Ordering::Less) => Way::Left,
        Ok(_) if matches!(key.compare(high), Ok(Ordering::Less)) => Way::Here,
        _ => Way::Right,
    }
}
