// What an edit builds before it writes anything: links, a draft of new nodes, and the balance rule.
#![tactic(auto)]

mod draft;
mod link;
mod sides;
mod turns;

pub use draft::{Draft, MOST_NEW};
pub use link::{Branch, Lean, Link, Numbered, Side};
pub use sides::size_over;
pub use turns::overweight;
