// Questions about the lines of an open tunnel.
ghost use Rattle.std.specs.Prelude.{◌≡◌, ◌+◌, ◌<◌, length, slice_index_or};
ghost use Rattle.std.specs.Option.{option_map};
ghost use Rattle.frame.specs.Frames.{frame_value};
ghost use Rattle.plant.specs.Questions.{no_frame};
ghost use Rattle.tunnel.specs.Tunnels.{keep, top_is, way_of, hop_frames, tunnel_value};
ghost use Rattle.tunnel.specs.Inner.{picks, told_at, told_get, tops_told};

use crate::open::Open;
use crate::path::Hop;
use frame::Frame;
use plant::Plant;

// That a line is one of the tunnel's stays asked: a line's number cannot say of which tunnel.
impl<P: Plant> Open<'_, P> {
    // The routers where a line begins and ends.
    pub(crate) fn ends(&self, line: usize) -> (usize, usize)
        requires { line < self.now.path.now.below + 2 }
        ensures from { result.0 ≡ ((tunnel_value self.now.path.now (P.value self.now.below.now)).shape.line line).from }
        ensures to { result.1 ≡ ((tunnel_value self.now.path.now (P.value self.now.below.now)).shape.line line).to }
    {
        if line < self.path.below {
            return self.below.ends(line).unwrap();
        }
        let back = line > self.path.below;
        let first = self.at(Hop { back, index: 0 });
        let last = self.at(Hop {
            back,
            index: self.path.len - 1,
        });
        (
            self.below.ends(first).unwrap().0,
            self.below.ends(last).unwrap().1,
        )
    }

    // How many frames may wait on a line.
    pub(crate) fn cap(&self, line: usize) -> usize
        requires { line < self.now.path.now.below + 2 }
        ensures { result ≡ ((tunnel_value self.now.path.now (P.value self.now.below.now)).shape.line line).cap }
    {
        if line >= self.path.below {
            return self.path.window;
        }
        let cap = self.below.cap(line).unwrap();
        if self.path.crosses(line) {
            cap - self.path.window
        } else {
            cap
        }
    }

    // How many polls a frame takes on its way along a line.
    pub(crate) fn span(&self, line: usize) -> usize
        requires { line < self.now.path.now.below + 2 }
        ensures { result ≡ ((tunnel_value self.now.path.now (P.value self.now.below.now)).shape.line line).span }
    {
        if line < self.path.below {
            return self.below.span(line).unwrap();
        }
        self.laid().travelled(line > self.path.below)
    }

    // How many frames wait on a line.
    pub(crate) fn waits(&self, line: usize) -> usize
        requires { line < self.now.path.now.below + 2 }
        ensures { result ≡ length ((tunnel_value self.now.path.now (P.value self.now.below.now)).waiting line) }
    {
        if line < self.path.below {
            let all = self.below.waits(line).unwrap();
            return match self.path.hop_on(line) {
                Some(hop) => all - self.carried(hop),
                None => all,
            };
        }
        let back = line > self.path.below;
        (0..self.path.len)
            .map(|index| self.carried(Hop { back, index }))
            .sum()
    }

    // The frame at a place of a line's list.
    pub(crate) fn frame(&self, line: usize, place: usize) -> Frame
        requires line { line < self.now.path.now.below + 2 }
        requires place { place < length ((tunnel_value self.now.path.now (P.value self.now.below.now)).waiting line) }
        ensures { frame_value result ≡ slice_index_or ((tunnel_value self.now.path.now (P.value self.now.below.now)).waiting line) place no_frame }
    {
        if line < self.path.below {
            return match self.path.hop_on(line) {
                Some(hop) => self.nth(hop, false, place),
                None => self.below.waiting(line, place).unwrap(),
            };
        }
        let back = line > self.path.below;
        let mut left = place;
        // by index: from hop to hop less is left to skip, and a chain's closure that changes what it captures is no plainer
        for k in 0..self.path.len {
            let hop = Hop {
                back,
                index: self.path.len - 1 - k,
            };
            let here = self.carried(hop);
            if left < here {
                let mut frame = self.nth(hop, true, left);
                let _ = frame.stack.pop();
                return frame;
            }
            left -= here;
        }
        unreachable()
    }

    // How many of the tunnel's own frames wait on a hop.
    fn carried(&self, hop: Hop) -> usize
        requires { hop.index < self.now.path.now.len }
        ensures { result ≡ length (hop_frames (P.value self.now.below.now).waiting (way_of hop.back self.now.path.now) hop.index) }
    {
        let line = self.at(hop);
        let label = self.path.label(hop);
        let all = self.below.waits(line).unwrap();
        (0..all)
            .filter(|place| self.labelled(line, *place, label))
            .count()
    }

    // Whether a frame with a label on top waits at a place of a line below.
    fn labelled(&self, line: usize, place: usize, label: u32) -> bool
        ensures { result ≡ top_is label (told_at (P.value self.now.below.now) line place) }
    {
        self.below
            .waiting(line, place)
            .is_some_and(|frame| has_top(&frame, label))
    }

    // The frame at a place among those on a hop's line that are the tunnel's own, or among the others: a flag, as the
    // specifications' `picks` has it. Each frame is asked for once, since a tunnel below answers by asking its own plant.
    fn nth(&self, hop: Hop, own: bool, at: usize) -> Frame
        requires hop { hop.index < self.now.path.now.len }
        requires at { at < length (keep (picks own ((way_of hop.back self.now.path.now).label hop.index)) ((P.value self.now.below.now).waiting ((way_of hop.back self.now.path.now).at hop.index))) }
        ensures { frame_value result ≡ slice_index_or (keep (picks own ((way_of hop.back self.now.path.now).label hop.index)) ((P.value self.now.below.now).waiting ((way_of hop.back self.now.path.now).at hop.index))) at no_frame }
    {
        let line = self.at(hop);
        let label = self.path.label(hop);
        let all = self.below.waits(line).unwrap();
        (0..all)
            .map(|place| self.told(line, place))
            .filter(|told| topped(told, label) == own)
            .nth(at)
            .flatten()
            .unwrap()
    }

    // The frame at a place of a line below, if one waits there.
    fn told(&self, line: usize, place: usize) -> Option<Frame>
        ensures { option_map frame_value result ≡ told_get (P.value self.now.below.now) line place }
    {
        self.below.waiting(line, place)
    }
}

// Whether there is a frame, with a label on top.
fn topped(told: &Option<Frame>, label: u32) -> bool
    ensures { result ≡ tops_told label (option_map frame_value told.now) }
{
    told.as_ref().is_some_and(|frame| has_top(frame, label))
}

// Whether a frame has a label on top.
fn has_top(frame: &Frame, label: u32) -> bool
    ensures { result ≡ top_is label (frame_value frame.now) }
{
    frame.stack.top().is_some_and(|top| top.label == label)
}
