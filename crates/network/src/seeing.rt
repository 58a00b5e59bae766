// A frame came out of a line, and the router there sees to it.
ghost use Rattle.std.specs.Prelude.{◌≡◌, ℕ, ◌<◌, false};
ghost use Rattle.frame.specs.declared.kind.Kind.TheVariants.{Data};
ghost use Rattle.frame.specs.Stacks.{entries_of};
ghost use Rattle.frame.specs.Frames.{frame_value};
ghost use Rattle.model.specs.Calls.{top_ttl, arriving, polled};
ghost use Rattle.network.specs.Networks.{plan_of, state_of};
ghost use Rattle.network.specs.Dealing.{Seen, arrival_of};

use crate::hand::InHand;
use crate::network::Network;
use frame::{Frame, Kind, Stack};
use model::Met;
use plant::Plant;

// The TTL of the top entry, 0 without one.
fn top_ttl(stack: &Stack) -> u8
    ensures { result ≡ top_ttl (entries_of stack.now) }
{
    stack.top().map_or(0, |entry| entry.ttl)
}

// That the network runs, and that a line is one of the plant's, stay asked for the reasons in arriving.rt and dealing.rt.
impl<P: Plant> Network<P> {
    // A packet came out of a line.
    fn packet(&mut self, line: usize, packet: u32, stack: &Stack) -> Met
        requires runs { self.old.routers.still ≡ false }
        requires line { line < (P.Plant.value self.old.plant).shape.lines }
        ensures seen { (b : ℕ) → Seen self.old.routers (P.Plant.value self.old.plant)
            (arriving (plan_of self.old.routers.plan) (P.Plant.value self.old.plant).shape Data line (entries_of stack.now) packet b
            (state_of self.old.routers (P.Plant.value self.old.plant))) (polled result line)
            self.new.routers (P.Plant.value self.new.plant) }
    {
        if !self.routers.awaits(packet) {
            return Met::Stray;
        }
        let router = self.routers.end_of(line).number();
        let verdict = self.stack_verdict(router, stack);
        let ttl = top_ttl(stack);
        self.deal(packet, InHand { router, ttl }, verdict);
        Met::Packet
    }

    // A frame came out of a line.
    pub(crate) fn arrive(&mut self, line: usize, frame: &Frame) -> Met
        requires runs { self.old.routers.still ≡ false }
        requires line { line < (P.Plant.value self.old.plant).shape.lines }
        ensures seen { Seen self.old.routers (P.Plant.value self.old.plant)
            (arrival_of self.old.routers (P.Plant.value self.old.plant) line (frame_value frame.now)) (polled result line)
            self.new.routers (P.Plant.value self.new.plant) }
    {
        match frame.kind {
            Kind::Data => self.packet(line, frame.a, &frame.stack),
            Kind::Mapping => self.routers.mapping(line, frame.a, frame.b),
            Kind::Withdraw => self.routers.withdraw(line, frame.a, frame.b),
            Kind::Release => self.routers.release(line, frame.a, frame.b),
        }
    }
}
