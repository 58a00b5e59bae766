// The words of a row: a number or a dash, the letter of a fate, the number of a cause.
ghost use Rattle.std.specs.Prelude.{◌≡◌, Some};
ghost use Rattle.report.specs.Words.{dashed, fate_letter, cause_shown};

use model::{Cause, Fate};
use std::fmt;

// A number, or a dash where there is none.
#[derive(Clone, Copy)]
pub struct OrDash(pub Option<usize>);

impl fmt::Display for OrDash {
    ghost output = { λ x. Some (dashed x.0) };

    fn fmt<W: fmt::Write>(&self, f: &mut fmt::Formatter<W>) -> fmt::Result {
        match self.0 {
            Some(n) => write!(f, "{n}"),
            None => write!(f, "-"),
        }
    }
}

// W for waiting, D for delivered, X for dropped.
#[derive(Clone, Copy)]
pub struct FateLetter(pub Fate);

impl fmt::Display for FateLetter {
    ghost output = { λ x. Some (fate_letter x.0) };

    fn fmt<W: fmt::Write>(&self, f: &mut fmt::Formatter<W>) -> fmt::Result {
        match self.0 {
            Fate::Waiting => write!(f, "W"),
            Fate::Delivered => write!(f, "D"),
            Fate::Dropped => write!(f, "X"),
        }
    }
}

// The number of a cause, or 0 where there is none.
pub fn cause_number(cause: Option<Cause>) -> u8
    ensures { result ≡ cause_shown cause }
{
    cause.map_or(0, Cause::number)
}
