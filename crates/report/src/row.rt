// One row of a report, and how it is written.
ghost use Rattle.std.specs.Prelude.{Some};
ghost use Rattle.report.specs.Text.{row_text};

use crate::words::{FateLetter, OrDash, cause_number};
use model::{Cause, Fate};
use std::fmt;

#[derive(Clone, Copy, PartialEq, Eq, Debug)]
pub enum Row {
    // a line of the file that is bad or was refused, with the number that says why; line 0 is the file as a whole
    Fault {
        line: usize,
        number: u8,
    },
    // a packet that was taken in, and what became of it: fate, router and cause side by side, as in its record
    Packet {
        number: usize,
        ingress: usize,
        fec: Option<usize>,
        fate: Fate,
        router: Option<usize>,
        cause: Option<Cause>,
    },
    // how many packets were taken in, and how many have each fate
    Totals {
        taken: usize,
        delivered: usize,
        dropped: usize,
        waiting: usize,
    },
}

impl fmt::Display for Row {
    ghost output = { λ x. Some (row_text x) };

    fn fmt<W: fmt::Write>(&self, f: &mut fmt::Formatter<W>) -> fmt::Result {
        match *self {
            Row::Fault { line, number } => write!(f, "E,{line},{number}"),
            Row::Packet {
                number,
                ingress,
                fec,
                fate,
                router,
                cause,
            } => {
                let fec = OrDash(fec);
                let fate = FateLetter(fate);
                let router = OrDash(router);
                let cause = cause_number(cause);
                write!(f, "K,{number},{ingress},{fec},{fate},{router},{cause}")
            }
            Row::Totals {
                taken,
                delivered,
                dropped,
                waiting,
            } => { write!(f, "Z,{taken},{delivered},{dropped},{waiting}") }
        }
    }
}
