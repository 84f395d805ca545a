// What a store holds, as text: a line for each node that is not free, and a line that counts them by mark.
#![tactic(auto)]

mod line;
mod printable;
mod sweep;
mod totals;

pub use printable::Printable;
pub use sweep::dump;
pub use totals::Totals;
