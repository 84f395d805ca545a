// Decimal keys: a coefficient and a scale, which mean coefficient / 10^scale.
ghost use Rattle.std.specs.Prelude.{◌≡◌, ◌-◌, ◌^◌, ◌≤◌, pos, ◌*ℤ◌, ◌≤ℤ◌, Some, None};
ghost use Rattle.keys.specs.Decimals.{decimal_fault, decimal_order, decimal_filler, decimal_body, decimal_of, decimal_shown, decimal_fault_shown, scaled};
ghost use Rattle.std.proofs.Common.{rules};

use crate::bytes::{read_signed, write_signed};
use crate::key::Key;
use crate::order::Ordered;
use std::cmp::Ordering;
use std::fmt;

#[derive(Clone, Copy, PartialEq, Eq, Debug)]
pub struct Decimal {
    pub scale: u8,
    pub coefficient: i64,
}

// Each fault has the value that is out of range.
#[derive(Clone, Copy, PartialEq, Eq, Debug)]
pub enum DecimalFault {
    Coefficient(i64),
    Scale(u8),
}

const MOST: i64 = 999_999_999;

impl Decimal {
    // The value in units of 10^-9, by which keys compare.
    fn units(&self) -> i64
        requires { decimal_fault self.now ≡ None }
        ensures { result ≡ scaled self.now }
    {
        let power = 10u32.pow(u32::from(9 - self.scale));
        self.coefficient * i64::from(power)
    }
}

impl Ordered for Decimal {
    type Fault = DecimalFault;

    ghost fault = { decimal_fault };

    ghost order = { decimal_order };

    ghost reflexive = { Prim.search rules };

    ghost reversal = { Prim.search rules };

    ghost transitive = { Prim.search rules };

    fn check(&self) -> Result<(), DecimalFault> {
        if !(-MOST..=MOST).contains(&self.coefficient) {
            return Err(DecimalFault::Coefficient(self.coefficient));
        }
        if self.scale > 9 {
            return Err(DecimalFault::Scale(self.scale));
        }
        Ok(())
    }

    fn compare(&self, other: &Decimal) -> Result<Ordering, DecimalFault> {
        self.check()?;
        other.check()?;
        Ok(self.units().cmp(&other.units()))
    }
}

impl Key for Decimal {
    ghost wide = { 9 };

    ghost blank = { decimal_filler };

    ghost body = { decimal_body };

    ghost unbody = { decimal_of };

    fn width() -> usize {
        9
    }

    fn filler() -> Decimal {
        Decimal {
            scale: 0,
            coefficient: 0,
        }
    }

    fn write_body(&self, out: &mut [u8]) {
        out[0] = self.scale;
        write_signed(self.coefficient, &mut out[1..9]);
    }

    fn read_body(from: &[u8]) -> Decimal {
        Decimal {
            scale: from[0],
            coefficient: read_signed(&from[1..9]),
        }
    }
}

impl fmt::Display for Decimal {
    ghost output = { λ k. Some (decimal_shown k) };

    fn fmt<W: fmt::Write>(&self, f: &mut fmt::Formatter<W>) -> fmt::Result {
        let coefficient = self.coefficient;
        let scale = self.scale;
        write!(f, "{coefficient}/{scale}")
    }
}

impl fmt::Display for DecimalFault {
    ghost output = { λ e. Some (decimal_fault_shown e) };

    fn fmt<W: fmt::Write>(&self, f: &mut fmt::Formatter<W>) -> fmt::Result {
        match self {
            DecimalFault::Coefficient(coefficient) => write!(f, "coefficient {coefficient}"),
            DecimalFault::Scale(scale) => write!(f, "scale {scale}"),
        }
    }
}
