// A key: an ordered element that can be kept in a node, with a body of bytes.
ghost use Rattle.std.specs.Prelude.{◌≡◌, ℕ, min, List, length};

use crate::order::Ordered;

pub trait Key: Ordered + Copy {
    // How many bytes a body has.
    ghost wide: { ℕ };

    // The key that stands where a node has none of its own.
    ghost blank: { Self };

    // The bytes of a key.
    ghost body: { Self → List ℕ };

    // The key that `wide` bytes are the body of.
    ghost unbody: { List ℕ → Self };

    // The width of a body, or the largest `usize` where that is less: so the widths of two kinds can always be added.
    fn width() -> usize
        ensures { result ≡ min wide 18446744073709551615 };

    // The filler key.
    fn filler() -> Self
        ensures { result ≡ blank };

    // Writes the body over `out`; the key can be read back from it.
    fn write_body(&self, out: &mut [u8])
        requires { length out.old ≡ wide }
        ensures written { out.new ≡ body self.now }
        ensures sized { length (body self.now) ≡ wide }
        ensures back { unbody (body self.now) ≡ self.now };

    // The key whose body these bytes are, well formed or not; its body is these bytes again.
    fn read_body(from: &[u8]) -> Self
        requires { length from.now ≡ wide }
        ensures value { result ≡ unbody from.now }
        ensures again { body result ≡ from.now };
}
