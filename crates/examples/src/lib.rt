// The published worked examples of stacks and tunnels, as one proved table.
#![tactic(auto)]

ghost use Rattle.std.specs.Prelude.{◌≡◌, length};
ghost use Rattle.tunnel.specs.Held.{All};
ghost use Rattle.examples.specs.Table.{examples, Holds};

// How many examples there are; every one of them holds.
pub fn examples_hold() -> usize
    ensures count { result ≡ length examples }
    ensures hold { All Holds examples }
{
    15
}
