// Making a tunnel over a plant.
ghost use Rattle.std.specs.Prelude.{◌≡◌, IfOk, MatchResult, Ok, Err};
ghost use Rattle.std.specs.Option.{option_map};
ghost use Rattle.std.specs.Result.{result_err};
ghost use Rattle.frame.specs.Numbers.{refused_by};
ghost use Rattle.tunnel.specs.Tunnels.{meaning};
ghost use Rattle.tunnel.specs.Onward.{tunnel_future};
ghost use Rattle.tunnel.specs.Rules.{padded, path_over, tunnel_refusal, tunnel_of, tunnel_over};

use crate::open::Open;
use crate::path::Path;
use crate::rules::judge;
use crate::tunnel::Tunnel;
use frame::Refusal;
use plant::Plant;
use std::array::from_fn;

impl<P: Plant> Tunnel<P> {
    // A tunnel over a plant, along lines of it and with a window: how many frames may be under way in one direction.
    // Where a rule is broken the tunnel is void: it tells which one, adds no line and passes all calls through.
    pub fn new(below: P, path: &[usize], window: usize) -> Tunnel<P>
        ensures told { refused_by result.route ≡ tunnel_refusal (P.Plant.value below) path.now window }
        ensures below { result.below ≡ below }
        ensures path { IfOk result.route (λ p. p ≡ path_over (P.Plant.value below).shape path.now window) }
        ensures value { meaning result.route (P.Plant.value result.below) ≡ tunnel_of (P.Plant.value below) path.now window }
        ensures future { option_map (tunnel_future result.route) (P.Plant.future result.below) ≡ option_map (tunnel_over path.now window) (P.Plant.future below) }
    {
        let base = (below.kept() as usize).saturating_sub(path.len()) as u32;
        let path = Path {
            lines: first_eight(path),
            len: path.len(),
            window,
            below: below.lines(),
            base,
        };
        let route = judge(&below, path);
        Tunnel { below, route }
    }

    // Why the tunnel is void, if it is. An Option, since to ask is no call that can be refused.
    pub fn fault(&self) -> Option<Refusal>
        ensures { result ≡ result_err self.now.route }
    {
        self.route.err()
    }

    // The plant below.
    pub fn below(&self) -> &P
        ensures { result.now ≡ self.now.below }
    {
        &self.below
    }

    // The open tunnel, unless it is void.
    pub(crate) fn open(&self) -> Result<Open<'_, P>, Refusal>
        ensures { MatchResult result (λ o. (o.below.now ≡ self.now.below) × (self.now.route ≡ Ok o.path.now)) (λ e. self.now.route ≡ Err e) }
    {
        // a match: a map of each side over `as_ref` is no plainer
        match &self.route {
            Ok(path) => Ok(Open {
                below: &self.below,
                path,
            }),
            Err(refusal) => Err(*refusal),
        }
    }
}

// The first eight of some lines, and 0 where there are no more.
fn first_eight(lines: &[usize]) -> [usize; 8]
    ensures { result ≡ padded 8 lines.now }
{
    from_fn(|i| lines.get(i).copied().unwrap_or(0))
}
