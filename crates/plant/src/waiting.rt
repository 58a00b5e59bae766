// Whether a plant is empty.
ghost use Rattle.std.specs.Prelude.{◌≡◌, ◌≢◌, MatchBool};
ghost use Rattle.plant.specs.Plants.{total};

use crate::plant::Plant;

// Whether no frame waits on any line.
pub fn nothing_waits<P: Plant>(plant: &P) -> bool
    ensures { MatchBool result (total (P.value plant.now) ≡ 0) (total (P.value plant.now) ≢ 0) }
{
    (0..plant.lines()).all(|line| plant.waits(line) == Some(0))
}
