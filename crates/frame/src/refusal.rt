// Why a call is refused. Each case has one published number.
ghost use Rattle.std.specs.Prelude.{◌≡◌, Some};
ghost use Rattle.frame.specs.Numbers.{refusal_number};
ghost use Rattle.frame.specs.Words.{refusal_text};

use std::error::Error;
use std::fmt;

#[derive(Clone, Copy, PartialEq, Eq, Debug)]
pub enum Refusal {
    // a push on a stack of 8 entries
    StackFull = 2,
    // a label where its rule does not let it stand
    LabelRule = 3,
    NoRouter = 4,
    NoFec = 5,
    NoLine = 6,
    OutOfRange = 7,
    // a prefix with a one bit behind its length
    HostBits = 8,
    // a next hop over a line that begins at another router
    OtherRouter = 9,
    // the lines of a tunnel are no path
    NoPath = 15,
    // one FEC too many
    TableFull = 20,
    // a FEC of that kind and length covers the prefix already
    FecTaken = 21,
    // what is below cannot carry it
    Unfit = 22,
    LineFull = 23,
    // a packet more than the book holds
    BookFull = 24,
    // a top label that the plant keeps for its tunnels
    LabelKept = 25,
    // more entries than the plant's depth
    TooDeep = 26,
    // a buffer with too few places
    BufferShort = 27,
}

impl Refusal {
    pub fn number(self) -> u8
        ensures { result ≡ refusal_number self }
    {
        self as u8
    }
}

impl fmt::Display for Refusal {
    ghost output = { λ r. Some (refusal_text r) };

    fn fmt<W: fmt::Write>(&self, f: &mut fmt::Formatter<W>) -> fmt::Result {
        write!(f, "refused with {}", self.number())
    }
}

impl Error for Refusal {}
