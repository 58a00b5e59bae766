// The ring plant's answers to the plant contract.
ghost use Rattle.std.specs.Prelude.{Some};
ghost use Rattle.ring.specs.Rings.{value_of, future_of};
ghost use Rattle.ring.specs.Steps.{ring_lawful};
ghost use Rattle.std.proofs.Common.{rules};

use crate::ring::Ring;
use frame::{Frame, Refusal};
use plant::{Outcome, Plant};

impl Plant for Ring {
    ghost value = { λ r. value_of r };

    ghost future = { λ r. Some (future_of r) };

    ghost lawful = { λ p. ring_lawful p.rows p.lines p.places.items p.sound };

    ghost shows = { Prim.search rules };

    fn lines(&self) -> usize {
        self.lines
    }

    fn ports(&self) -> usize {
        self.lines
    }

    fn kept(&self) -> u32 {
        1_048_576
    }

    fn depth(&self) -> usize {
        8
    }

    fn ends(&self, line: usize) -> Option<(usize, usize)> {
        self.row(line).map(|row| (row.from, row.to))
    }

    fn cap(&self, line: usize) -> Option<usize> {
        self.row(line).map(|row| row.cap)
    }

    fn span(&self, line: usize) -> Option<usize> {
        self.row(line).map(|_| 1)
    }

    fn waits(&self, line: usize) -> Option<usize> {
        self.row(line).map(|row| row.len)
    }

    fn waiting(&self, line: usize, place: usize) -> Option<Frame> {
        if place >= self.waits(line)? {
            return None;
        }
        Some(self.frame_at(line, place))
    }

    fn count(&self, port: usize) -> usize {
        self.waits(port).unwrap_or(0)
    }

    fn send(&mut self, line: usize, frame: Frame) -> Result<(), Refusal> {
        self.admits(line, &frame)?;
        self.put(line, frame);
        Ok(())
    }

    fn poll(&mut self, port: usize, place: &mut Frame) -> (Outcome, usize) {
        match self.take(port) {
            None => (Outcome::Idle, 0),
            Some(frame) => {
                *place = frame;
                (Outcome::Handed, port)
            }
        }
    }
}
