// The other line of a link.
ghost use Rattle.std.specs.Prelude.{◌≡◌};
ghost use Rattle.plant.specs.Plants.{partner};

// The line that leads back between the same two routers.
pub fn partner_of(line: usize) -> usize
    ensures { result ≡ partner line }
{
    if line % 2 == 0 { line + 1 } else { line - 1 }
}
