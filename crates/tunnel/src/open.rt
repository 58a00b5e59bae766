// An open tunnel, as questions read it: the plant below, and the path over it.
ghost use Rattle.std.specs.Prelude.{◌≡◌, ◌<◌};
ghost use Rattle.tunnel.specs.Tunnels.{way_of, tunnel_value};
ghost use Rattle.tunnel.specs.Held.{TunnelOk};
ghost use Rattle.tunnel.specs.Props.{open_prop};

use crate::laid::Laid;
use crate::path::{Hop, Path};
use plant::Plant;

#[derive(Drop)]
pub(crate) struct Open<'a, P: Plant> {
    pub(crate) below: &'a P,
    pub(crate) path: &'a Path,
    // the path keeps the rules over the plant below
    ghost ok: { TunnelOk path.now (P.value below.now) } by { open_prop path.now (P.value below.now) },
}

impl<P: Plant> Open<'_, P> {
    // The number of lines.
    pub(crate) fn lines(&self) -> usize
        ensures { result ≡ (tunnel_value self.now.path.now (P.value self.now.below.now)).shape.lines }
    {
        self.path.below + 2
    }

    // The path, as one whose lines exist below.
    pub(crate) fn laid(&self) -> Laid<'_, P>
        ensures below { result.below.now ≡ self.now.below.now }
        ensures path { result.path.now ≡ self.now.path.now }
    {
        Laid {
            below: self.below,
            path: self.path,
        }
    }

    // The line below of a hop.
    pub(crate) fn at(&self, hop: Hop) -> usize
        requires { hop.index < self.now.path.now.len }
        ensures is { result ≡ (way_of hop.back self.now.path.now).at hop.index }
        ensures exists { result < (P.value self.now.below.now).shape.lines }
    {
        self.laid().at(hop)
    }
}
