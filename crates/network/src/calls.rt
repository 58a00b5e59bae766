// The five calls. Each says what stays (`Keeps`): a type cannot say what a call leaves as it was. Each takes any numbers, the mark
// of own among them, since it refuses those that name nothing. Own and route hand on in one line: they touch the routers alone.
ghost use Rattle.std.specs.Prelude.{◌≡◌};
ghost use Rattle.model.specs.Calls.{own, route, inject, tell, poll};
ghost use Rattle.model.specs.History.{Did};
ghost use Rattle.network.specs.Networks.{plan_of, state_of, Keeps, own_answer, inject_answer, tell_answer, poll_answer};

use crate::frames::message_frame;
use crate::network::Network;
use frame::{Frame, Kind, Refusal};
use grid::Line;
use lookup::Address;
use model::Met;
use plant::{Outcome, Plant};

impl<P: Plant> Network<P> {
    // Sets or takes off a router's owner mark for a FEC.
    pub fn own(&mut self, router: usize, fec: u32, mark: usize) -> Result<(), Refusal>
        ensures keeps { Keeps self.old.routers self.new.routers }
        ensures did { Did self.old.routers.still (plan_of self.old.routers.plan)
            (state_of self.old.routers (P.Plant.value self.old.plant)) (own router fec mark) (own_answer result)
            (state_of self.new.routers (P.Plant.value self.new.plant)) }
    {
        self.routers.own(router, fec, mark)
    }

    // Sets a router's next hop for a FEC, or takes it away.
    pub fn route(&mut self, router: usize, fec: u32, line: Option<usize>) -> Result<(), Refusal>
        ensures keeps { Keeps self.old.routers self.new.routers }
        ensures did { Did self.old.routers.still (plan_of self.old.routers.plan)
            (state_of self.old.routers (P.Plant.value self.old.plant)) (route router fec line) (own_answer result)
            (state_of self.new.routers (P.Plant.value self.new.plant)) }
    {
        self.routers.route(router, fec, line)
    }

    // Takes a packet in at a router, and answers its number.
    pub fn inject(&mut self, router: usize, address: Address, ttl: usize) -> Result<usize, Refusal>
        ensures keeps { Keeps self.old.routers self.new.routers }
        ensures did { Did self.old.routers.still (plan_of self.old.routers.plan)
            (state_of self.old.routers (P.Plant.value self.old.plant)) (inject router address ttl) (inject_answer result)
            (state_of self.new.routers (P.Plant.value self.new.plant)) }
    {
        self.routers.runs()?;
        let hand = self.routers.parse_inject(router, ttl)?;
        let fec = self.routers.fec_of(address);
        let verdict = self.entry_verdict(hand, fec);
        let packet = self.routers.enter(hand, address, fec);
        self.deal(packet as u32, hand, verdict);
        Ok(packet)
    }

    // Sends one message that is due on a line, and answers its kind; none if none is due.
    pub fn tell(&mut self, line: usize) -> Result<Option<Kind>, Refusal>
        ensures keeps { Keeps self.old.routers self.new.routers }
        ensures did { Did self.old.routers.still (plan_of self.old.routers.plan)
            (state_of self.old.routers (P.Plant.value self.old.plant)) (tell line) (tell_answer result)
            (state_of self.new.routers (P.Plant.value self.new.plant)) }
    {
        self.routers.runs()?;
        if line >= self.plant.lines() {
            return Err(Refusal::NoLine);
        }
        let Some(message) = self.routers.tables.next_message(line) else {
            return Ok(None);
        };
        if self.is_full(line) {
            return Err(Refusal::LineFull);
        }
        let _ = self.plant.send(line, message_frame(message));
        self.routers.tables.sent(Line::new(line).unwrap(), message);
        Ok(Some(message.kind))
    }

    // Polls a port of the plant, and lets the router at the end of the line see to a frame that comes out. Answers a pair, as the
    // plant does.
    pub fn poll(&mut self, port: usize) -> Result<(Met, usize), Refusal>
        ensures keeps { Keeps self.old.routers self.new.routers }
        ensures did { Did self.old.routers.still (plan_of self.old.routers.plan)
            (state_of self.old.routers (P.Plant.value self.old.plant)) (poll port) (poll_answer result)
            (state_of self.new.routers (P.Plant.value self.new.plant)) }
    {
        self.routers.runs()?;
        let mut place = Frame::default();
        let (outcome, line) = self.plant.poll(port, &mut place);
        match outcome {
            Outcome::Idle => Ok((Met::Idle, 0)),
            Outcome::Moved => Ok((Met::Moved, 0)),
            Outcome::Handed => {
                let met = self.arrive(line, &place);
                Ok((met, line))
            }
        }
    }
}
