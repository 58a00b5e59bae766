// What a poll of the network met.
ghost use Rattle.std.specs.Prelude.{◌≡◌};
ghost use Rattle.model.specs.Numbers.{met_number};

#[derive(Clone, Copy, PartialEq, Eq, Debug)]
pub enum Met {
    // the plant had nothing to do at the port
    Idle = 0,
    // the plant moved a frame on
    Moved = 1,
    // a message came out and was read
    Message = 2,
    // a packet came out and was dealt with
    Packet = 3,
    // a frame came out that no rule expects
    Stray = 4,
}

impl Met {
    pub fn number(self) -> u8
        ensures { result ≡ met_number self }
    {
        self as u8
    }
}
