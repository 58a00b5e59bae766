// Polls of an open tunnel.
ghost use Rattle.std.specs.Prelude.{◌≡◌, ◌+◌, ◌<◌, ◌≤◌, None, Ok};
ghost use Rattle.std.specs.Option.{option_map};
ghost use Rattle.frame.specs.Frames.{frame_value};
ghost use Rattle.plant.specs.Answers.{Joins, Polls, send_refusal};
ghost use Rattle.plant.specs.Futures.{Foretold, after, turn_at, polled, sent};
ghost use Rattle.tunnel.specs.Tunnels.{tunnel_value};
ghost use Rattle.tunnel.specs.Held.{Links, TunnelOk};
ghost use Rattle.tunnel.specs.Onward.{next_outer, relabelled, next_line, next_frame, turn_of, PollsBelow, open_future};
ghost use Rattle.tunnel.specs.Inner.{Carried, CarriedOn};

use crate::path::{Hop, Path};
use crate::sending::push_sure;
use frame::{Entry, Frame};
use plant::{Outcome, Plant};

// Polls below. A frame that comes out there and is no own one comes out here too.
pub(crate) fn poll_open<P: Plant>(
    below: &mut P,
    path: &Path,
    port: usize,
    place: &mut Frame,
) -> (Outcome, usize)
    requires opened { TunnelOk path.now (P.value below.old) }
    ensures opened { TunnelOk path.now (P.value below.new) }
    ensures polls { Polls (tunnel_value path.now (P.value below.old)) port place.old result place.new (tunnel_value path.now (P.value below.new)) }
    ensures relayed { PollsBelow (Ok path.now) (P.value below.old) port place.old (turn_of result place.new) (P.value below.new) }
    ensures turn { Foretold (option_map (open_future path.now) (P.future below.old)) (λ b. turn_at b port ≡ turn_of result place.new) }
    ensures future { option_map (open_future path.now) (P.future below.new) ≡ option_map (λ b. after b (polled port)) (option_map (open_future path.now) (P.future below.old)) }
{
    let mut held = *place;
    let (outcome, line) = below.poll(port, &mut held);
    match outcome {
        Outcome::Idle => (Outcome::Idle, 0),
        Outcome::Moved => (Outcome::Moved, 0),
        Outcome::Handed => match path.owner(line, &held) {
            None => {
                *place = held;
                (Outcome::Handed, line)
            }
            Some(hop) => carry_on(below, path, hop, held, place),
        },
    }
}

// An own frame that came out of a hop: before its last hop it is sent on, after that it comes out of the tunnel's line.
fn carry_on<P: Plant>(
    below: &mut P,
    path: &Path,
    hop: Hop,
    mut held: Frame,
    place: &mut Frame,
) -> (Outcome, usize)
    requires links { Links path.now }
    requires few { path.now.below < 48 }
    requires hop { hop.index < path.now.len }
    requires high { 80 ≤ path.now.base }
    requires room { hop.index + 1 < path.now.len → send_refusal (P.value below.old) (next_line path.now hop) (next_frame path.now hop (frame_value held)) ≡ None }
    ensures carried { Carried result.0 path.now hop (frame_value held) (P.value below.old) result.1 place.old place.new (P.value below.new) }
    ensures future { CarriedOn result.0 path.now hop (frame_value held) (P.future below.old) (P.future below.new) }
{
    if hop.index + 1 < path.len {
        relay(below, path, hop, held);
        return (Outcome::Moved, 0);
    }
    let _ = held.stack.pop();
    *place = held;
    (Outcome::Handed, path.line(hop.back))
}

// Sends an own frame on to the next hop, where there is room for it.
fn relay<P: Plant>(below: &mut P, path: &Path, hop: Hop, held: Frame)
    requires links { Links path.now }
    requires high { 80 ≤ path.now.base }
    requires next { hop.index + 1 < path.now.len }
    requires room { send_refusal (P.value below.old) (next_line path.now hop) (next_frame path.now hop (frame_value held)) ≡ None }
    ensures joins { Joins (P.value below.old) (next_line path.now hop) (next_frame path.now hop (frame_value held)) (P.value below.new) }
    ensures future { P.future below.new ≡ option_map (λ b. after b (sent (next_line path.now hop) (next_frame path.now hop (frame_value held)))) (P.future below.old) }
{
    let next = Hop {
        back: hop.back,
        index: hop.index + 1,
    };
    let onward = relabel(held, path.label(next));
    let _ = below.send(path.at(next), onward);
}

// A frame with the top entry for its next hop.
fn relabel(mut frame: Frame, label: u32) -> Frame
    requires low { 16 ≤ label }
    requires wide { label < 1048576 }
    ensures { frame_value result ≡ relabelled label (frame_value frame) }
{
    let outer = next_outer(&frame, label);
    let _ = frame.stack.pop();
    push_sure(&mut frame, outer);
    frame
}

// The top entry for the next hop: that hop's label, the same TC, and a TTL one less, stopping at 0.
fn next_outer(frame: &Frame, label: u32) -> Entry
    ensures { result ≡ next_outer label (frame_value frame.now).stack }
{
    let top = frame.stack.top().unwrap_or_default();
    Entry {
        label,
        ttl: top.ttl.saturating_sub(1),
        ..top
    }
}
