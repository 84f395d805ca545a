// The keys of a range catalogue: what an order is, what a key adds to it, and three kinds of key.
#![tactic(auto)]

ghost use Rattle.keys.specs.Meanings.{ComparisonsTell};

mod bytes;
mod decimal;
mod key;
mod order;
mod text;
mod whole;

pub use bytes::bytes_at;
pub use decimal::{Decimal, DecimalFault};
pub use key::Key;
pub use order::Ordered;
pub use text::{Text, TextFault};
pub use whole::Whole;

// A theorem: what each comparison's answer says of the two keys, as a relation.
pub fn comparisons_tell()
    ensures { ComparisonsTell }
{}
