// The record of a packet.
ghost use Rattle.std.specs.Prelude.{◌≡◌};
ghost use Rattle.model.specs.Packets.{is_fate, close};
ghost use Rattle.book.specs.Records.{record_of, end_of};

use crate::end::End;
use model::{Cause, Fate};

#[derive(Clone, Copy, PartialEq, Eq, Debug)]
pub struct Record<A> {
    pub number: usize,
    // the router where it came in
    pub ingress: usize,
    pub address: A,
    pub ttl: u8,
    pub fec: Option<usize>,
    // these three are not one end: a record may have any of each, as in the model, and a narrower type would ask more
    pub fate: Fate,
    // where and why it ended
    pub router: Option<usize>,
    pub cause: Option<Cause>,
}

impl<A: Copy> Record<A> {
    // Whether the packet has this fate.
    pub(crate) fn has(&self, fate: Fate) -> bool
        ensures { result ≡ is_fate fate self.now.fate }
    {
        self.fate == fate
    }

    // Writes the packet's end into its record.
    pub(crate) fn finish(&mut self, end: End)
        ensures { record_of self.new ≡ close (end_of end) (record_of self.old) }
    {
        self.fate = end.fate;
        self.router = Some(end.router);
        self.cause = end.cause;
    }
}
