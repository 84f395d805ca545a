// Numbers as bytes, highest first.
ghost use Rattle.std.specs.Prelude.{◌≡◌, ◌+◌, ◌≤◌, length, take, drop};
ghost use Rattle.keys.specs.Bytes.{number, signed_bytes, signed_number};

// The N bytes from place `at` on, as an array: what `from_be_bytes` takes.
pub fn bytes_at<const N: usize>(from: &[u8], at: usize) -> [u8; N]
    requires { at + N ≤ length from.now }
    ensures value { result ≡ take N (drop at from.now) }
    ensures number { number N 0 result ≡ number N at from.now }
{
    from[at..at + N].try_into().unwrap()
}

// The number that eight bytes write; its bytes are these again.
pub(crate) fn read_signed(from: &[u8]) -> i64
    requires { length from.now ≡ 8 }
    ensures value { result ≡ signed_number from.now }
    ensures again { signed_bytes result ≡ from.now }
{
    i64::from_be_bytes(bytes_at(from, 0))
}

// Writes the bytes of a number, from which it can be read back.
pub(crate) fn write_signed(number: i64, out: &mut [u8])
    requires { length out.old ≡ 8 }
    ensures written { out.new ≡ signed_bytes number }
    ensures back { signed_number (signed_bytes number) ≡ number }
{
    out.copy_from_slice(&number.to_be_bytes());
}
