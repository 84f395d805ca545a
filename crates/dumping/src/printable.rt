// Keys that can be printed beside those of other kinds. A trait of its own beside `Into<AnyKey>`, which may be silent on what it converts to:
// of a kind that is, a dump could promise nothing.
ghost use Rattle.std.specs.Prelude.{◌≡◌};
ghost use Rattle.listing.specs.declared.call.AnyKey.{AnyKey};
ghost use Rattle.listing.specs.declared.call.AnyKey.TheVariants as any;

use keys::{Decimal, Key, Text, Whole};
use listing::AnyKey;

pub trait Printable: Key {
    // The key as one of any kind.
    ghost held: { Self → AnyKey };

    fn any(&self) -> AnyKey
        ensures { result ≡ held self.now };
}

impl Printable for Whole {
    ghost held = { any.Whole };

    fn any(&self) -> AnyKey {
        (*self).into()
    }
}

impl Printable for Decimal {
    ghost held = { any.Decimal };

    fn any(&self) -> AnyKey {
        (*self).into()
    }
}

impl Printable for Text {
    ghost held = { any.Text };

    fn any(&self) -> AnyKey {
        (*self).into()
    }
}
