// For each line and FEC: the label that the router where the line begins has learned from the other end.
ghost use Rattle.std.specs.Prelude.{◌≡◌, None};
ghost use Rattle.model.specs.Tables.{put2};
ghost use Rattle.tables.specs.Grids.{remotes_of};

use grid::{FecNumber, Grid, Label, Line};

#[derive(Drop)]
pub struct Remotes {
    learned: Grid<Option<Label>, 48, 0, 32, 1536>,
}

impl Remotes {
    // No label is learned.
    pub fn new() -> Remotes
        ensures { remotes_of result ≡ (λ _ _. None) }
    {
        Remotes {
            learned: Grid::filled(None),
        }
    }

    pub fn get(&self, line: usize, fec: u32) -> Option<Label>
        ensures { result ≡ remotes_of self.now line fec }
    {
        self.learned.get(line, fec as usize).flatten()
    }

    pub fn set(&mut self, line: Line, fec: FecNumber, label: Option<Label>)
        ensures { remotes_of self.new ≡ put2 (remotes_of self.old) line fec label }
    {
        self.learned.set(line, fec, label);
    }
}
