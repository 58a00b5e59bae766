// How news of a label changes its stages.
ghost use Rattle.std.specs.Prelude.{◌≡◌, ℕ};
ghost use Rattle.plant.specs.Plants.{Shape};
ghost use Rattle.model.specs.Tables.{untold, put2, on_lines_into};
ghost use Rattle.labels.specs.Numbers.{Follows};
ghost use Rattle.labels.specs.Stagings.{stages_of};
ghost use Rattle.labels.specs.Wirings.{Wired};

use crate::stage::Stage;
use crate::stages::Stages;
use crate::wiring::Wiring;
use grid::{Label, Line, Router};

impl Stages {
    // Nothing is left to tell of a label on a line.
    pub(crate) fn untell(&mut self, line: Line, label: Label)
        ensures { stages_of self.new ≡ put2 (stages_of self.old) line label untold }
    {
        self.put(line, label, Stage::Untold);
    }

    // Changes the stage of a label on each line into its router, by the news of it.
    pub(crate) fn tell<F: Fn(Stage) -> Stage>(
        &mut self,
        wiring: &Wiring,
        router: Router,
        label: Label,
        news: F,
    )
        requires { F.IsAlwaysCallable news }
        ensures { (S : Shape) (c : ℕ → ℕ) → Wired wiring.now S → Follows (F.post news) c
            → stages_of self.new ≡ on_lines_into S router label c (stages_of self.old) }
    {
        // a loop and no iterator: each line's stage is written into self
        for line in 0..wiring.lines {
            if wiring.leads_into(line, router.number()) {
                let stage = news(self.get(line, label.number()));
                self.put(Line::new(line).unwrap(), label, stage);
            }
        }
    }
}
