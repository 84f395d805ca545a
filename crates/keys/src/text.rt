// Text keys: at most 16 bytes, with zeros past the length.
ghost use Rattle.std.specs.Prelude.{◌≡◌, ◌<◌, Some};
ghost use Rattle.std.specs.Fmt.{WritesOnOk};
ghost use Rattle.keys.specs.Texts.{text_fault, text_order, text_filler, text_body, text_of, text_shown, text_fault_shown, hex, hex_digit, text_bytes};
ghost use Rattle.keys.specs.Lexes.{bytes_reflexive, bytes_reversal, bytes_transitive};

use crate::bytes::bytes_at;
use crate::key::Key;
use crate::order::Ordered;
use std::cmp::Ordering;
use std::fmt;

// A length beside a buffer, and no fixed-capacity type, since the format has a length byte and 16 bytes, any of which
// may be ill formed and comes back as it was.
#[derive(Clone, Copy, PartialEq, Eq, Debug)]
pub struct Text {
    pub len: u8,
    pub bytes: [u8; 16],
}

// A fault has the length that is too large, or the first byte past the length that is not zero, with its place.
#[derive(Clone, Copy, PartialEq, Eq, Debug)]
pub enum TextFault {
    Length(u8),
    Stray { place: u8, byte: u8 },
}

impl Ordered for Text {
    type Fault = TextFault;

    ghost fault = { text_fault };

    ghost order = { text_order };

    ghost reflexive = { λ a wa. bytes_reflexive (text_bytes a) };

    ghost reversal = { λ a b wa wb. bytes_reversal (text_bytes a) (text_bytes b) };

    ghost transitive = { λ a b c wa wb wc h k. bytes_transitive (text_bytes a) (text_bytes b) (text_bytes c) h k };

    fn check(&self) -> Result<(), TextFault> {
        if self.len > 16 {
            return Err(TextFault::Length(self.len));
        }
        let padding = &self.bytes[self.len as usize..];
        for (place, &byte) in (self.len..16).zip(padding) {
            if byte != 0 {
                return Err(TextFault::Stray { place, byte });
            }
        }
        Ok(())
    }

    fn compare(&self, other: &Text) -> Result<Ordering, TextFault> {
        self.check()?;
        other.check()?;
        let ours = &self.bytes[..self.len as usize];
        let theirs = &other.bytes[..other.len as usize];
        Ok(ours.cmp(theirs))
    }
}

impl Key for Text {
    ghost wide = { 17 };

    ghost blank = { text_filler };

    ghost body = { text_body };

    ghost unbody = { text_of };

    fn width() -> usize {
        17
    }

    fn filler() -> Text {
        Text {
            len: 0,
            bytes: [0; 16],
        }
    }

    fn write_body(&self, out: &mut [u8]) {
        out[0] = self.len;
        out[1..17].copy_from_slice(&self.bytes);
    }

    fn read_body(from: &[u8]) -> Text {
        Text {
            len: from[0],
            bytes: bytes_at(from, 1),
        }
    }
}

// One hexadecimal digit.
fn digit(value: u8) -> char
    requires { value < 16 }
    ensures { result ≡ hex_digit value }
{
    char::from_digit(u32::from(value), 16).unwrap()
}

// Two hexadecimal digits a byte, each written as it is: `{:02x}` took a third more time where it pads. A function beside `fmt`: there the proof
// did not close, since what the bytes are was not known in the loop.
fn write_hex<W: fmt::Write>(bytes: &[u8], f: &mut fmt::Formatter<W>) -> fmt::Result
    ensures { WritesOnOk W.Write.write_str_gives f.old result (hex bytes.now) f.new }
{
    for byte in bytes {
        f.write_char(digit(byte / 16))?;
        f.write_char(digit(byte % 16))?;
    }
    Ok(())
}

impl fmt::Display for Text {
    ghost output = { λ t. Some (text_shown t) };

    fn fmt<W: fmt::Write>(&self, f: &mut fmt::Formatter<W>) -> fmt::Result {
        // A length above 16 has no bytes of its own past the sixteenth.
        let bytes = &self.bytes[..self.len.min(16) as usize];
        if bytes.is_empty() {
            return f.write_str("-");
        }
        write_hex(bytes, f)
    }
}

impl fmt::Display for TextFault {
    ghost output = { λ e. Some (text_fault_shown e) };

    fn fmt<W: fmt::Write>(&self, f: &mut fmt::Formatter<W>) -> fmt::Result {
        match self {
            TextFault::Length(len) => write!(f, "length {len}"),
            TextFault::Stray { place, byte } => write!(f, "byte {byte} at {place}"),
        }
    }
}
