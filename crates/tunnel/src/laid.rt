// A path whose lines exist in the plant below, and the spans along it. A type beside Open, with less known of the same pair: a
// path is judged as one that is laid before it can be open.
ghost use Rattle.std.specs.Prelude.{◌≡◌, ◌<◌, ◌≤◌};
ghost use Rattle.std.proofs.Props.{props};
ghost use Rattle.tunnel.specs.Tunnels.{way_of, hop_span, spans};
ghost use Rattle.tunnel.specs.Held.{Exist};

use crate::path::{Hop, Path};
use plant::Plant;

#[derive(Drop)]
pub(crate) struct Laid<'a, P: Plant> {
    pub(crate) below: &'a P,
    pub(crate) path: &'a Path,
    // there are 1 to 8 hops, each on a line that exists
    ghost some: { 1 ≤ path.now.len },
    ghost few: { path.now.len ≤ 8 },
    ghost exist: { Exist (P.value below.now).shape path.now } by { Prim.hlevel props },
}

impl<P: Plant> Laid<'_, P> {
    // The line below of a hop.
    pub(crate) fn at(&self, hop: Hop) -> usize
        requires { hop.index < self.now.path.now.len }
        ensures is { result ≡ (way_of hop.back self.now.path.now).at hop.index }
        ensures exists { result < (P.value self.now.below.now).shape.lines }
    {
        self.path.at(hop)
    }

    // The span of a hop's line.
    fn span(&self, hop: Hop) -> usize
        requires { hop.index < self.now.path.now.len }
        ensures { result ≡ hop_span (P.value self.now.below.now).shape (way_of hop.back self.now.path.now) hop.index }
    {
        self.below.span(self.at(hop)).unwrap()
    }

    // The spans of a direction, added up.
    pub(crate) fn travelled(&self, back: bool) -> usize
        ensures { result ≡ spans (P.value self.now.below.now).shape (way_of back self.now.path.now) }
    {
        (0..self.path.len)
            .map(|index| self.span(Hop { back, index }))
            .sum()
    }
}
