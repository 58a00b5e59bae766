// What every plant is: a meaning, laws, and answers. Code over a bound `P: Plant` is proved once for all plants.
ghost use Rattle.std.specs.Prelude.{◌≡◌, [], None, Option};
ghost use Rattle.std.specs.Option.{option_map};
ghost use Rattle.frame.specs.Frames.{frame_value};
ghost use Rattle.plant.specs.Plants.{PlantValue, Lawful};
ghost use Rattle.plant.specs.Answers.{Sends, Polls};
ghost use Rattle.plant.specs.Questions.{ends_at, cap_at, span_at, waits_at, Waiting, count_at};
ghost use Rattle.plant.specs.Futures.{Future, Foretold, after, after_send, turn_at, turn_is, polled};

use crate::outcome::Outcome;
use frame::{Frame, Refusal};

pub trait Plant {
    // What the plant stands for.
    ghost value: { Self → PlantValue };

    // What the plant will answer, call by call, where that is known; of a plant that says nothing here nothing is owed.
    ghost future: { Self → Option Future } = { λ _. None };

    // The number of lines.
    fn lines(&self) -> usize
        ensures { result ≡ (value self.now).shape.lines };

    // The number of ports.
    fn ports(&self) -> usize
        ensures { result ≡ (value self.now).shape.ports };

    // The lowest label that the plant keeps for itself.
    fn kept(&self) -> u32
        ensures { result ≡ (value self.now).shape.kept };

    // The greatest number of entries of a frame that it takes.
    fn depth(&self) -> usize
        ensures { result ≡ (value self.now).shape.depth };

    // The routers where a line begins and ends.
    fn ends(&self, line: usize) -> Option<(usize, usize)>
        ensures { result ≡ ends_at (value self.now).shape line };

    // How many frames may wait on a line.
    fn cap(&self, line: usize) -> Option<usize>
        ensures { result ≡ cap_at (value self.now).shape line };

    // How many polls a frame takes on its way along a line.
    fn span(&self, line: usize) -> Option<usize>
        ensures { result ≡ span_at (value self.now).shape line };

    // How many frames wait on a line.
    fn waits(&self, line: usize) -> Option<usize>
        ensures { result ≡ waits_at (value self.now) line };

    // The frame that waits at a place of a line, the oldest at 0.
    fn waiting(&self, line: usize, place: usize) -> Option<Frame>
        ensures { Waiting (value self.now) line place result };

    // How many frames a port counts.
    fn count(&self, port: usize) -> usize
        ensures { result ≡ count_at (value self.now) port };

    // Puts a frame on a line, or refuses it and changes nothing.
    fn send(&mut self, line: usize, frame: Frame) -> Result<(), Refusal>
        ensures sends { Sends (value self.old) line (frame_value frame) result (value self.new) }
        ensures future { future self.new ≡ option_map (after_send line (frame_value frame) result) (future self.old) };

    // Lets the plant do one thing at a port; a frame that comes out goes to the caller's place. The answer is a pair, as `ends`
    // is one: so the project's rules name them. The line is 0 where none is meant.
    fn poll(&mut self, port: usize, place: &mut Frame) -> (Outcome, usize)
        ensures polls { Polls (value self.old) port place.old result place.new (value self.new) }
        ensures turn { Foretold (future self.old) (λ b. turn_at b port ≡ turn_is result.0 result.1 (frame_value place.new)) }
        ensures future { future self.new ≡ option_map (λ b. after b (polled port)) (future self.old) };

    ghost lawful: { (p : Self) → Lawful (value p) };

    ghost shows: { (p : Self) → Foretold (future p) (λ b. (b []).value ≡ value p) };
}
