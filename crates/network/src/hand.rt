// A packet in hand at a router: all that decides, with the FEC, where it goes.
#[derive(Clone, Copy)]
pub struct InHand {
    pub(crate) router: usize,
    pub(crate) ttl: u8,
}
