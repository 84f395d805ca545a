// The order of keys: what the tree is sorted by, and nothing else.
ghost use Rattle.std.specs.Prelude.{◌≡◌, None, Option};
ghost use Rattle.std.specs.declared.cmp.Ordering.{Ordering};
ghost use Rattle.std.specs.declared.cmp.Ordering.TheVariants.{Equal};
ghost use Rattle.keys.specs.Orders.{reversed, NotAbove, checked, compared};

use std::cmp::Ordering;

// Elements that can be compared. Some of them may be ill formed: such an element has a fault,
// and is neither below, the same as nor above any other.
pub trait Ordered: Sized {
    // What can be wrong with an element; a kind without faults takes an empty type.
    type Fault: Copy;

    // What is wrong with an element; none where it is well formed.
    ghost fault: { Self → Option Self.Fault };

    // How the first element stands to the second; it says something of well-formed ones only.
    ghost order: { Self → Self → Ordering };

    // Whether the element is well formed, or which fault it has.
    fn check(&self) -> Result<(), Self::Fault>
        ensures { result ≡ checked (fault self.now) tt };

    // How the element stands to the other, or the fault of an ill-formed one: the first's where both are.
    fn compare(&self, other: &Self) -> Result<Ordering, Self::Fault>
        ensures { result ≡ compared (fault self.now) (fault other.now) (order self.now other.now) };

    // An element is the same as itself.
    ghost reflexive: { (a : Self) → fault a ≡ None → order a a ≡ Equal };

    // Comparing b with a reverses comparing a with b.
    ghost reversal: { (a b : Self) → fault a ≡ None → fault b ≡ None → order b a ≡ reversed (order a b) };

    // 'Not above' chains.
    ghost transitive: { (a b c : Self) → fault a ≡ None → fault b ≡ None → fault c ≡ None → NotAbove (order a b) → NotAbove (order b c) → NotAbove (order a c) };
}
