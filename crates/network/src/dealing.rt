// What is to be done with a packet in hand, and doing it.
ghost use Rattle.std.specs.Prelude.{◌≡◌, ◌<◌, true, [], ◌∷◌};
ghost use Rattle.frame.specs.Stacks.{entries_of};
ghost use Rattle.model.specs.Packets.{along, handle, is_full, by_stack};
ghost use Rattle.model.specs.Calls.{end_by, send_by, entry_verdict};
ghost use Rattle.tables.specs.Rows.{is_below};
ghost use Rattle.tables.specs.Reading.{tables_of};
ghost use Rattle.network.specs.Networks.{state_of};
ghost use Rattle.network.specs.Dealing.{verdict_of, Dealt};

use crate::frames::data_frame;
use crate::hand::InHand;
use crate::network::Network;
use crate::verdict::Verdict;
use book::End;
use frame::{Entry, Stack};
use grid::Label;
use labels::Status;
use model::{Cause, Fate};
use plant::Plant;

// That a line is one of the plant's stays asked: a line's number cannot say of which plant.
impl<P: Plant> Network<P> {
    // Whether as many frames wait on a line as may.
    pub(crate) fn is_full(&self, line: usize) -> bool
        requires line { line < (P.Plant.value self.now.plant).shape.lines }
        ensures { result ≡ is_full (P.Plant.value self.now.plant) line }
    {
        self.plant.cap(line).unwrap() <= self.plant.waits(line).unwrap()
    }

    // Over a line, for whose far end a label is known or not.
    fn along(&self, line: usize, fec: u32) -> Verdict
        requires line { line < (P.Plant.value self.now.plant).shape.lines }
        ensures { verdict_of result ≡ along (P.Plant.value self.now.plant) line ((tables_of self.now.routers.tables).remote line fec) }
    {
        let Some(label) = self.routers.tables.remote(line, fec) else {
            return Verdict::Drop(Cause::NoRemoteLabel);
        };
        if self.is_full(line) {
            return Verdict::Drop(Cause::NoRoom);
        }
        Verdict::Forward { line, label }
    }

    // Router by router: TTL, owner, next hop, label, full line.
    fn handle(&self, hand: InHand, fec: u32) -> Verdict
        ensures { verdict_of result ≡ handle (tables_of self.now.routers.tables) (P.Plant.value self.now.plant) hand.router fec hand.ttl }
    {
        if hand.ttl <= 1 {
            return Verdict::Drop(Cause::TtlSpent);
        }
        if self.routers.tables.owns(hand.router, fec) {
            return Verdict::Deliver;
        }
        let Some(line) = self.routers.tables.next_hop(hand.router, fec) else {
            return Verdict::Drop(Cause::NoNextHop);
        };
        self.along(line, fec)
    }

    // A packet came in.
    pub(crate) fn entry_verdict(&self, hand: InHand, fec: Option<usize>) -> Verdict
        requires { is_below 32 fec ≡ true }
        ensures { verdict_of result ≡ entry_verdict hand.router hand.ttl fec (state_of self.now.routers (P.Plant.value self.now.plant)) }
    {
        let Some(fec) = fec else {
            return Verdict::Drop(Cause::NoMatch);
        };
        self.handle(hand, fec as u32)
    }

    // A packet came out under a label.
    fn label_verdict(&self, router: usize, entry: Entry) -> Verdict
        ensures { verdict_of result ≡ by_stack (tables_of self.now.routers.tables) (P.Plant.value self.now.plant) router (entry ∷ []) }
    {
        let Some(label) = Label::new(entry.label as usize) else {
            return Verdict::Drop(Cause::UnknownLabel);
        };
        let hand = InHand {
            router,
            ttl: entry.ttl,
        };
        match self.routers.tables.status(router, label.number()) {
            Status::Free | Status::Taken => Verdict::Drop(Cause::UnknownLabel),
            Status::Leaving(_) => Verdict::Drop(Cause::LeavingLabel),
            Status::Bound(fec) => self.handle(hand, fec),
        }
    }

    // A packet came out under a stack.
    pub(crate) fn stack_verdict(&self, router: usize, stack: &Stack) -> Verdict
        ensures { verdict_of result ≡ by_stack (tables_of self.now.routers.tables) (P.Plant.value self.now.plant) router (entries_of stack.now) }
    {
        if stack.len() != 1 {
            return Verdict::Drop(Cause::UnknownLabel);
        }
        self.label_verdict(router, stack.top().unwrap())
    }

    // Deals with a packet in hand at a router.
    pub(crate) fn deal(&mut self, packet: u32, hand: InHand, verdict: Verdict)
        ensures { Dealt self.old.routers (P.Plant.value self.old.plant) (end_by hand.router packet (verdict_of verdict)) (send_by packet hand.ttl (verdict_of verdict))
            self.new.routers (P.Plant.value self.new.plant) }
    {
        let (fate, cause) = match verdict {
            Verdict::Forward { line, label } => {
                let _ = self.plant.send(
                    line,
                    data_frame(packet, label, hand.ttl.saturating_sub(1)),
                );
                return;
            }
            Verdict::Deliver => (Fate::Delivered, None),
            Verdict::Drop(cause) => (Fate::Dropped, Some(cause)),
        };
        self.routers.book.end(End {
            packet: packet as usize,
            fate,
            router: hand.router,
            cause,
        });
    }
}
