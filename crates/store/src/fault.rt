// Why a store refuses: which of its functions, at which number, and for which cause.
ghost use Rattle.std.specs.Prelude.{◌≡◌, ◌-◌, Some, Ok};
ghost use Rattle.store.specs.Faults.{function_word, cause_word, inside_or, store_fault_shown};

use std::error::Error;
use std::fmt;

// The functions of a store that can be refused.
#[derive(Clone, Copy, PartialEq, Eq, Debug)]
pub enum Function {
    Mark,
    Read,
    Write,
}

// Outside: no node has the number. Closed: the node cannot be read.
#[derive(Clone, Copy, PartialEq, Eq, Debug)]
pub enum Cause {
    Outside,
    Closed,
}

#[derive(Clone, Copy, PartialEq, Eq, Debug)]
pub struct StoreFault {
    pub function: Function,
    pub node: usize,
    pub cause: Cause,
}

// Where node n of `count` nodes stands in a row that begins at 0; the numbers begin at 1.
pub fn index_of(function: Function, n: usize, count: usize) -> Result<usize, StoreFault>
    ensures { result ≡ inside_or function n count (Ok (n - 1)) }
{
    if n == 0 || n > count {
        return Err(StoreFault {
            function,
            node: n,
            cause: Cause::Outside,
        });
    }
    Ok(n - 1)
}

impl fmt::Display for Function {
    ghost output = { λ function. Some (function_word function) };

    fn fmt<W: fmt::Write>(&self, f: &mut fmt::Formatter<W>) -> fmt::Result {
        f.write_str(match self {
            Function::Mark => "mark",
            Function::Read => "read",
            Function::Write => "write",
        })
    }
}

impl fmt::Display for Cause {
    ghost output = { λ cause. Some (cause_word cause) };

    fn fmt<W: fmt::Write>(&self, f: &mut fmt::Formatter<W>) -> fmt::Result {
        f.write_str(match self {
            Cause::Outside => "outside",
            Cause::Closed => "closed",
        })
    }
}

impl fmt::Display for StoreFault {
    ghost output = { λ e. Some (store_fault_shown e) };

    fn fmt<W: fmt::Write>(&self, f: &mut fmt::Formatter<W>) -> fmt::Result {
        let StoreFault {
            function,
            node,
            cause,
        } = self;
        write!(f, "{function} {node} {cause}")
    }
}

impl Error for StoreFault {}
