// Sends on the lines of an open tunnel.
ghost use Rattle.std.specs.Prelude.{◌≡◌, ◌+◌, ◌<◌, ◌≤◌, length, None};
ghost use Rattle.std.specs.Option.{option_map};
ghost use Rattle.frame.specs.Frames.{frame_value};
ghost use Rattle.frame.specs.Numbers.{refused_by};
ghost use Rattle.frame.specs.Stacks.{entries_of, push_refusal};
ghost use Rattle.plant.specs.Answers.{Sends, send_refusal};
ghost use Rattle.tunnel.specs.Tunnels.{tunnel_value, way_of};
ghost use Rattle.tunnel.specs.Held.{TunnelOk};
ghost use Rattle.tunnel.specs.Onward.{pushed, labelled, entering, Entered};
ghost use Rattle.tunnel.specs.Inner.{after_entry};

use crate::open::Open;
use crate::path::{Hop, Path};
use frame::{Entry, Frame, Refusal};
use plant::{Plant, label_kept};

// Sends below, on a line under the tunnel's own the frame itself, on one of these the frame as it enters the direction.
// Here and in a poll the plant and the path go side by side: a fact kept beside a `&mut` is not covered by the prover.
pub(crate) fn send_open<P: Plant>(
    below: &mut P,
    path: &Path,
    line: usize,
    frame: Frame,
) -> Result<(), Refusal>
    requires opened { TunnelOk path.now (P.value below.old) }
    ensures opened { TunnelOk path.now (P.value below.new) }
    ensures sends { Sends (tunnel_value path.now (P.value below.old)) line (frame_value frame) result (tunnel_value path.now (P.value below.new)) }
    ensures entered { Entered (entering path.now line (frame_value frame)) (P.value below.old) result (P.value below.new) }
    ensures future { P.future below.new ≡ option_map (after_entry (entering path.now line (frame_value frame)) result) (P.future below.old) }
{
    Open { below, path }.admit(line, &frame)?;
    if line < path.below {
        return below.send(line, frame);
    }
    let first = Hop {
        back: line > path.below,
        index: 0,
    };
    below.send(path.at(first), enter(path, first, frame))
}

impl<P: Plant> Open<'_, P> {
    // Refuses a frame on a line by the first rule that it breaks.
    fn admit(&self, line: usize, frame: &Frame) -> Result<(), Refusal>
        ensures { refused_by result ≡ send_refusal (tunnel_value self.now.path.now (P.value self.now.below.now)) line (frame_value frame.now) }
    {
        if line >= self.lines() {
            return Err(Refusal::NoLine);
        }
        if self.cap(line) <= self.waits(line) {
            return Err(Refusal::LineFull);
        }
        if label_kept(frame, self.path.base) {
            return Err(Refusal::LabelKept);
        }
        if frame.stack.len() > self.below.depth() - 1 {
            return Err(Refusal::TooDeep);
        }
        Ok(())
    }
}

// A frame as it enters a hop from outside: with the label of the hop, TC 0 and TTL 255 on top.
fn enter(path: &Path, hop: Hop, mut frame: Frame) -> Frame
    requires small { path.now.base + path.now.len ≤ 1048576 }
    requires hop { hop.index < path.now.len }
    requires high { 79 < path.now.base }
    requires room { length (entries_of frame.stack) < 8 }
    ensures { frame_value result ≡ labelled ((way_of hop.back path.now).label hop.index) (frame_value frame) }
{
    push_sure(
        &mut frame,
        Entry {
            label: path.label(hop),
            tc: 0,
            ttl: 255,
        },
    );
    frame
}

// Pushes an entry that no rule refuses.
pub(crate) fn push_sure(frame: &mut Frame, entry: Entry)
    requires { push_refusal (entries_of frame.old.stack) entry ≡ None }
    ensures { frame_value frame.new ≡ pushed entry (frame_value frame.old) }
{
    let _ = frame.stack.push(entry);
}
