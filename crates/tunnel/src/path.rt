// The path of a tunnel, and to which of its hops a line or a frame belongs.
ghost use Rattle.std.specs.Prelude.{◌≡◌, ◌+◌, ◌<◌, ◌≤◌};
ghost use Rattle.frame.specs.Frames.{frame_value};
ghost use Rattle.tunnel.specs.Tunnels.{way_of, crossing};
ghost use Rattle.tunnel.specs.Held.{Links};
ghost use Rattle.tunnel.specs.Onward.{line_of};
ghost use Rattle.tunnel.specs.Inner.{Hops, Found, OnHop, Owned, link_of};

use frame::Frame;
use plant::partner_of;

#[derive(Clone, Copy)]
pub struct Path {
    // the lines below of the hops forth, in a table of their own since no memory is taken for a tunnel
    pub(crate) lines: [usize; 8],
    // how many hops there are
    pub(crate) len: usize,
    // how many frames may be under way in one direction
    pub(crate) window: usize,
    // how many lines are below: the tunnel's own are the next two
    pub(crate) below: usize,
    // the label of the first hop forth, those of the others being the next ones
    pub(crate) base: u32,
}

// A hop of a direction, counted from 0 as a frame travels. That it is one of a path's is asked: a hop cannot say of which path.
#[derive(Clone, Copy)]
pub struct Hop {
    // a flag, as in the specifications: forth or back, and nothing else hangs on it
    pub(crate) back: bool,
    pub(crate) index: usize,
}

// What holds of a path is asked, and not in its type: a path is made before it is judged.
impl Path {
    // The lines of the hops forth.
    pub(crate) fn hops(&self) -> &[usize]
        requires { self.now.len ≤ 8 }
        ensures { Hops self.now result.now }
    {
        &self.lines[..self.len]
    }

    // The hop forth that is on a line.
    fn find(&self, line: usize) -> Option<usize>
        requires { self.now.len ≤ 8 }
        ensures { Found self.now line result }
    {
        self.hops().iter().position(|on| *on == line)
    }

    // The hop that is on a line.
    pub(crate) fn hop_on(&self, line: usize) -> Option<Hop>
        requires links { Links self.now }
        ensures { OnHop self.now line result }
    {
        if let Some(index) = self.find(line) {
            return Some(Hop { back: false, index });
        }
        let i = self.find(partner_of(line))?;
        Some(Hop {
            back: true,
            index: self.len - 1 - i,
        })
    }

    // The hop that a frame on a line below belongs to, if it is one of the tunnel's own.
    pub(crate) fn owner(&self, line: usize, frame: &Frame) -> Option<Hop>
        requires links { Links self.now }
        ensures { Owned self.now line (frame_value frame.now) result }
    {
        let hop = self.hop_on(line)?;
        let top = frame.stack.top()?;
        (top.label == self.label(hop)).then_some(hop)
    }

    // The hop forth on whose link a hop is.
    fn link(&self, hop: Hop) -> usize
        requires { hop.index < self.now.len }
        ensures { result ≡ link_of self.now hop.back hop.index }
    {
        if hop.back {
            self.len - 1 - hop.index
        } else {
            hop.index
        }
    }

    // The line below of a hop.
    pub(crate) fn at(&self, hop: Hop) -> usize
        requires few { self.now.len ≤ 8 }
        requires hop { hop.index < self.now.len }
        ensures { result ≡ (way_of hop.back self.now).at hop.index }
    {
        let line = self.lines[self.link(hop)];
        if hop.back { partner_of(line) } else { line }
    }

    // The label of a hop.
    pub(crate) fn label(&self, hop: Hop) -> u32
        requires small { self.now.base + self.now.len ≤ 1048576 }
        requires hop { hop.index < self.now.len }
        ensures { result ≡ (way_of hop.back self.now).label hop.index }
    {
        self.base + self.link(hop) as u32
    }

    // The tunnel's own line of a direction.
    pub(crate) fn line(&self, back: bool) -> usize
        requires { self.now.below < 48 }
        ensures { result ≡ line_of self.now back }
    {
        if back { self.below + 1 } else { self.below }
    }

    // Whether a line's link is on the path.
    #[tactic(auto, using(crate::proofs::Reading::crosses_by_hop))]
    pub(crate) fn crosses(&self, line: usize) -> bool
        requires links { Links self.now }
        ensures { result ≡ crossing self.now line }
    {
        self.hop_on(line).is_some()
    }
}
