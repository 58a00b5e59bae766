// A plant in use: sends and polls, with a line of print for each that is not idle.
ghost use Rattle.std.specs.Prelude.{◌≡◌, IfOk, OnOk};
ghost use Rattle.plant.specs.Plants.{total};
ghost use Rattle.carry.specs.Sweeps.{Swept, Passed};

use crate::printing::Shown;
use frame::Frame;
use plant::{Outcome, Plant};
use std::{fmt, io};

// How many frames were taken and refused, and how many polls moved or gave a frame.
#[derive(Clone, Copy, Default)]
pub struct Tally {
    taken: u32,
    refused: u32,
    moved: u32,
    given: u32,
}

impl fmt::Display for Tally {
    fn fmt<W: fmt::Write>(&self, f: &mut fmt::Formatter<W>) -> fmt::Result {
        let Tally {
            taken,
            refused,
            moved,
            given,
        } = *self;
        write!(
            f,
            "taken {taken}, refused {refused}, moved {moved}, given {given}"
        )
    }
}

// A plant, the place that its frames come out to, and what was counted so far.
#[derive(Drop)]
pub struct Carrier<P: Plant> {
    plant: P,
    place: Frame,
    tally: Tally,
}

impl<P: Plant> Carrier<P> {
    pub fn new(plant: P) -> Carrier<P> {
        Carrier {
            plant,
            place: Frame::default(),
            tally: Tally::default(),
        }
    }

    pub fn tally(&self) -> Tally {
        self.tally
    }

    // Prints the lines of the plant.
    pub fn describe(&self, rt: &impl Print) -> io::Result<()> {
        // over numbers: a plant lends no list of its lines, or of its ports
        for line in 0..self.plant.lines() {
            let (from, to) = self.plant.ends(line).unwrap();
            let cap = self.plant.cap(line).unwrap();
            let span = self.plant.span(line).unwrap();
            println!(rt; "line {line}: {from} to {to}, cap {cap}, span {span}")?;
        }
        Ok(())
    }

    // Sends a frame on a line.
    pub fn send(&mut self, rt: &impl Print, line: usize, frame: Frame) -> io::Result<()> {
        print!(rt; "send on line {line}: {}, ", Shown(&frame))?;
        match self.plant.send(line, frame) {
            Ok(()) => {
                self.tally.taken = self.tally.taken.saturating_add(1);
                println!(rt; "taken")
            }
            Err(refusal) => {
                self.tally.refused = self.tally.refused.saturating_add(1);
                println!(rt; "{refusal}")
            }
        }
    }

    // Polls a port.
    pub fn poll(&mut self, rt: &impl Print, port: usize) -> io::Result<Outcome>
        ensures { IfOk result (λ o. Swept (P.Plant.value self.old.plant) port o (P.Plant.value self.new.plant)) }
    {
        let (outcome, line) = self.plant.poll(port, &mut self.place);
        match outcome {
            Outcome::Idle => {}
            Outcome::Moved => {
                self.tally.moved = self.tally.moved.saturating_add(1);
                println!(rt; "poll port {port}: moved")?;
            }
            Outcome::Handed => {
                self.tally.given = self.tally.given.saturating_add(1);
                println!(rt;
                    "poll port {port}: line {line} gives {}",
                    Shown(&self.place)
                )?;
            }
        }
        Ok(outcome)
    }

    // Polls every port once, in their order, and tells whether some poll was not idle.
    pub fn sweep(&mut self, rt: &impl Print) -> io::Result<bool>
        ensures { IfOk result (λ some. Passed (P.Plant.value self.old.plant) some (P.Plant.value self.new.plant)) }
    {
        let mut some = false;
        // over numbers, as in `describe`
        for port in 0..self.plant.ports() {
            if self.poll(rt, port)? != Outcome::Idle {
                some = true;
            }
        }
        Ok(some)
    }

    // Polls until nothing waits.
    pub fn drain(&mut self, rt: &impl Print) -> io::Result<()>
        ensures { OnOk result (total (P.Plant.value self.new.plant) ≡ 0) }
    {
        while self.sweep(rt)? {}
        Ok(())
    }
}
