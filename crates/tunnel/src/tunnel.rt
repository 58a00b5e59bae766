// A tunnel as a plant. A void one passes all calls through to the plant below. Each question has the same arms: one function
// over the question would take two closures, and be no plainer.
ghost use Rattle.std.specs.Prelude.{◌≡◌};
ghost use Rattle.std.specs.Option.{option_map};
ghost use Rattle.frame.specs.Frames.{frame_value};
ghost use Rattle.plant.specs.Answers.{Sends, Polls};
ghost use Rattle.plant.specs.Futures.{Foretold, after, after_send, turn_at, polled};
ghost use Rattle.tunnel.specs.Tunnels.{meaning};
ghost use Rattle.tunnel.specs.Held.{Kept};
ghost use Rattle.tunnel.specs.Props.{kept_prop};
ghost use Rattle.tunnel.specs.Onward.{entering_at, Entered, turn_of, PollsBelow, tunnel_future};
ghost use Rattle.tunnel.specs.Foretells.{tells_value, lawful_of};

use crate::path::Path;
use crate::polling::poll_open;
use crate::sending::send_open;
use frame::{Frame, Refusal};
use plant::{Outcome, Plant};

#[derive(Drop)]
pub struct Tunnel<P: Plant> {
    pub(crate) below: P,
    // where the tunnel leads, or the rule that was broken: then it is void
    pub(crate) route: Result<Path, Refusal>,
    // an open tunnel keeps the rules of its path at every time
    ghost kept: { Kept route (P.value below) } by { kept_prop route (P.value below) },
}

impl<P: Plant> Plant for Tunnel<P> {
    ghost value = { λ t. meaning t.route (P.Plant.value t.below) };

    ghost future = { λ t. option_map (tunnel_future t.route) (P.Plant.future t.below) };

    ghost lawful = { λ t. lawful_of t.route (P.Plant.value t.below) t.kept (P.Plant.lawful t.below) };

    ghost shows = { λ t. tells_value t.route (P.Plant.future t.below) (P.Plant.value t.below) (P.Plant.shows t.below) };

    fn lines(&self) -> usize {
        match &self.route {
            Ok(path) => path.below + 2,
            Err(_) => self.below.lines(),
        }
    }

    fn ports(&self) -> usize {
        self.below.ports()
    }

    fn kept(&self) -> u32 {
        match &self.route {
            Ok(path) => path.base,
            Err(_) => self.below.kept(),
        }
    }

    fn depth(&self) -> usize {
        match &self.route {
            Ok(path) => self.below.depth() - 1,
            Err(_) => self.below.depth(),
        }
    }

    fn ends(&self, line: usize) -> Option<(usize, usize)> {
        match self.open() {
            Ok(open) if line < open.lines() => Some(open.ends(line)),
            Ok(_) => None,
            Err(_) => self.below.ends(line),
        }
    }

    fn cap(&self, line: usize) -> Option<usize> {
        match self.open() {
            Ok(open) if line < open.lines() => Some(open.cap(line)),
            Ok(_) => None,
            Err(_) => self.below.cap(line),
        }
    }

    fn span(&self, line: usize) -> Option<usize> {
        match self.open() {
            Ok(open) if line < open.lines() => Some(open.span(line)),
            Ok(_) => None,
            Err(_) => self.below.span(line),
        }
    }

    fn waits(&self, line: usize) -> Option<usize> {
        match self.open() {
            Ok(open) if line < open.lines() => Some(open.waits(line)),
            Ok(_) => None,
            Err(_) => self.below.waits(line),
        }
    }

    fn waiting(&self, line: usize, place: usize) -> Option<Frame> {
        match self.open() {
            Ok(open) if line < open.lines() && place < open.waits(line) => Some(open.frame(
                line, place,
            )),
            Ok(_) => None,
            Err(_) => self.below.waiting(line, place),
        }
    }

    fn count(&self, port: usize) -> usize {
        self.below.count(port)
    }

    // Beside what every plant promises: at the plant below, what has joined which line.
    fn send(&mut self, line: usize, frame: Frame) -> Result<(), Refusal>
        ensures sends { Sends (meaning self.old.route (P.Plant.value self.old.below)) line (frame_value frame) result (meaning self.new.route (P.Plant.value self.new.below)) }
        ensures future { option_map (tunnel_future self.new.route) (P.Plant.future self.new.below) ≡ option_map (after_send line (frame_value frame) result) (option_map (tunnel_future self.old.route) (P.Plant.future self.old.below)) }
        ensures entered { Entered (entering_at self.old.route line (frame_value frame)) (P.Plant.value self.old.below) result (P.Plant.value self.new.below) }
        ensures route { self.new.route ≡ self.old.route }
    {
        match &self.route {
            Ok(path) => send_open(&mut self.below, path, line, frame),
            Err(_) => self.below.send(line, frame),
        }
    }

    // Beside what every plant promises: at the plant below, a poll, and what was then sent on there.
    fn poll(&mut self, port: usize, place: &mut Frame) -> (Outcome, usize)
        ensures polls { Polls (meaning self.old.route (P.Plant.value self.old.below)) port place.old result place.new (meaning self.new.route (P.Plant.value self.new.below)) }
        ensures turn { Foretold (option_map (tunnel_future self.old.route) (P.Plant.future self.old.below)) (λ b. turn_at b port ≡ turn_of result place.new) }
        ensures future { option_map (tunnel_future self.new.route) (P.Plant.future self.new.below) ≡ option_map (λ b. after b (polled port)) (option_map (tunnel_future self.old.route) (P.Plant.future self.old.below)) }
        ensures relayed { PollsBelow self.old.route (P.Plant.value self.old.below) port place.old (turn_of result place.new) (P.Plant.value self.new.below) }
        ensures route { self.new.route ≡ self.old.route }
    {
        match &self.route {
            Ok(path) => poll_open(&mut self.below, path, port, place),
            Err(_) => self.below.poll(port, place),
        }
    }
}
