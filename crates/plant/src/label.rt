// The test of a frame's top label that every plant makes.
ghost use Rattle.std.specs.Prelude.{◌≡◌};
ghost use Rattle.frame.specs.Frames.{frame_value};
ghost use Rattle.plant.specs.Plants.{over_kept};

use frame::Frame;

// Whether a frame's top label is one that the plant keeps for itself.
pub fn label_kept(frame: &Frame, kept: u32) -> bool
    ensures { result ≡ over_kept kept (frame_value frame.now).stack }
{
    frame.stack.top().is_some_and(|top| kept <= top.label)
}
