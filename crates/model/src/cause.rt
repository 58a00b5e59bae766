// Why a packet was dropped.
ghost use Rattle.std.specs.Prelude.{◌≡◌};
ghost use Rattle.model.specs.Numbers.{cause_number};

#[derive(Clone, Copy, PartialEq, Eq, Debug)]
pub enum Cause {
    // no FEC covers its address
    NoMatch = 1,
    // its label is not one that the router has in use
    UnknownLabel = 2,
    // its TTL was at most 1
    TtlSpent = 3,
    // its label is leaving its FEC
    LeavingLabel = 4,
    // the router has no next hop for its FEC
    NoNextHop = 5,
    // the router knows no label for its FEC on the line of the next hop
    NoRemoteLabel = 6,
    // the line of the next hop is full
    NoRoom = 7,
}

impl Cause {
    pub fn number(self) -> u8
        ensures { result ≡ cause_number self }
    {
        self as u8
    }
}
