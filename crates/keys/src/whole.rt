// Whole keys: signed numbers of 64 bits, never ill formed.
ghost use Rattle.std.specs.Prelude.{◌≡◌, Some};
ghost use Rattle.keys.specs.Wholes.{whole_fault, whole_order, whole_filler, whole_body, whole_of, whole_shown};
ghost use Rattle.std.proofs.Common.{rules};

use crate::bytes::{read_signed, write_signed};
use crate::key::Key;
use crate::order::Ordered;
use std::cmp::Ordering;
use std::convert::Infallible;
use std::fmt;

#[derive(Clone, Copy, PartialEq, Eq, Debug)]
pub struct Whole(pub i64);

impl Ordered for Whole {
    type Fault = Infallible;

    ghost fault = { whole_fault };

    ghost order = { whole_order };

    ghost reflexive = { Prim.search rules };

    ghost reversal = { Prim.search rules };

    ghost transitive = { Prim.search rules };

    fn check(&self) -> Result<(), Infallible> {
        Ok(())
    }

    fn compare(&self, other: &Whole) -> Result<Ordering, Infallible> {
        Ok(self.0.cmp(&other.0))
    }
}

impl Key for Whole {
    ghost wide = { 8 };

    ghost blank = { whole_filler };

    ghost body = { whole_body };

    ghost unbody = { whole_of };

    fn width() -> usize {
        8
    }

    fn filler() -> Whole {
        Whole(0)
    }

    fn write_body(&self, out: &mut [u8]) {
        write_signed(self.0, out);
    }

    fn read_body(from: &[u8]) -> Whole {
        Whole(read_signed(from))
    }
}

impl fmt::Display for Whole {
    ghost output = { λ k. Some (whole_shown k) };

    fn fmt<W: fmt::Write>(&self, f: &mut fmt::Formatter<W>) -> fmt::Result {
        let number = self.0;
        write!(f, "{number}")
    }
}
