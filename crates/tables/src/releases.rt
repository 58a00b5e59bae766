// For each line and label: the FEC of the release that is due there, if one is.
ghost use Rattle.std.specs.Prelude.{◌≡◌, None};
ghost use Rattle.model.specs.Tables.{put2};
ghost use Rattle.tables.specs.Grids.{dues_of, first_due};

use grid::{Grid, Label, Line};

// Its new, get and set are those of Remotes at other types: each type names what its grid holds, and they are one line each.
#[derive(Drop)]
pub struct Releases {
    due: Grid<Option<u32>, 48, 16, 80, 3072>,
}

impl Releases {
    // No release is due.
    pub fn new() -> Releases
        ensures { dues_of result ≡ (λ _ _. None) }
    {
        Releases {
            due: Grid::filled(None),
        }
    }

    pub fn get(&self, line: usize, label: usize) -> Option<u32>
        ensures { result ≡ dues_of self.now line label }
    {
        self.due.get(line, label).flatten()
    }

    pub fn set(&mut self, line: Line, label: Label, fec: Option<u32>)
        ensures { dues_of self.new ≡ put2 (dues_of self.old) line label fec }
    {
        self.due.set(line, label, fec);
    }

    // The smallest label whose release is due on a line, with its FEC.
    pub fn first(&self, line: usize) -> Option<(Label, u32)>
        ensures { result ≡ first_due (dues_of self.now line) }
    {
        let label = Label::smallest(|label| self.get(line, label.number()).is_some())?;
        self.get(line, label.number()).map(|fec| (label, fec))
    }
}
