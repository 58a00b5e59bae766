// The stage of each label on each line: 48 lines times 64 labels in one flat array.
ghost use Rattle.std.specs.Prelude.{◌≡◌, ℕ, not, ◌&&◌, ◌==◌, nat_eq};
ghost use Rattle.model.specs.Tables.{untold, put2, first_label};
ghost use Rattle.labels.specs.Numbers.{stage_number};
ghost use Rattle.labels.specs.Stagings.{stage_at, stages_of};
ghost use Rattle.labels.specs.Wirings.{leads_into, quiet_on};

use crate::stage::Stage;
use crate::wiring::Wiring;
use grid::{Grid, Label, Line};

#[derive(Drop)]
pub(crate) struct Stages {
    pub(crate) at: Grid<Stage, 48, 16, 80, 3072>,
}

impl Stages {
    pub(crate) fn new() -> Stages
        ensures { (line label : ℕ) → stages_of result line label ≡ untold }
    {
        Stages {
            at: Grid::filled(Stage::Untold),
        }
    }

    pub(crate) fn get(&self, line: usize, label: usize) -> Stage
        ensures { result ≡ stage_at self.now line label }
    {
        self.at.get(line, label).unwrap_or(Stage::Untold)
    }

    pub(crate) fn put(&mut self, line: Line, label: Label, stage: Stage)
        ensures { stages_of self.new ≡ put2 (stages_of self.old) line label (stage_number stage) }
    {
        self.at.set(line, label, stage);
    }

    // The smallest label at a stage on a line.
    pub(crate) fn first_at(&self, line: usize, stage: Stage) -> Option<Label>
        ensures { result ≡ first_label (λ l. nat_eq (stages_of self.now line l) (stage_number stage)) }
    {
        Label::smallest(|label| self.is_at(line, label.number(), stage))
    }

    fn is_at(&self, line: usize, label: usize, stage: Stage) -> bool
        ensures { result ≡ (stages_of self.now line label == stage_number stage) }
    {
        self.get(line, label) == stage
    }

    // Whether a label is at no stage but Untold on all lines into its router.
    pub(crate) fn is_quiet(&self, wiring: &Wiring, router: usize, label: usize) -> bool
        ensures { result ≡ quiet_on wiring.now router label (stages_of self.now) }
    {
        !(0..wiring.lines).any(|line| self.is_held(wiring, line, router, label))
    }

    fn is_held(&self, wiring: &Wiring, line: usize, router: usize, label: usize) -> bool
        ensures { result ≡ (leads_into wiring.now line router
            && not (stages_of self.now line label == untold)) }
    {
        wiring.leads_into(line, router) && !self.is_at(line, label, Stage::Untold)
    }
}
