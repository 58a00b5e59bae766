// What became of a packet.
#[derive(Clone, Copy, PartialEq, Eq, Debug)]
pub enum Fate {
    // it is on its way
    Waiting,
    // it came out at a router that owns its FEC
    Delivered,
    // a router dropped it
    Dropped,
}
