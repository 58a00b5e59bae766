// Questions of the labels. What is out of range is free, untold or none, so each takes any numbers. Each hands on to the pool or
// the stages, in one line.
ghost use Rattle.std.specs.Prelude.{◌≡◌, nat_eq};
ghost use Rattle.model.specs.Tables.{Tables, fec_of, label_of, first_label};
ghost use Rattle.labels.specs.Numbers.{stage_number};
ghost use Rattle.labels.specs.Pools.{status_of};
ghost use Rattle.labels.specs.Reading.{labelled};

use crate::labels::Labels;
use crate::stage::Stage;
use crate::status::Status;
use crate::wiring::Wiring;
use grid::Label;

impl Labels {
    pub fn wiring(&self) -> &Wiring
        ensures { result.now ≡ self.now.wiring }
    {
        &self.wiring
    }

    pub fn status(&self, router: usize, label: usize) -> Status
        ensures { (t : Tables) → status_of result ≡ (labelled self.now t).status router label }
    {
        self.pool.get(router, label)
    }

    // The FEC that a label is bound to or leaving, else 0.
    pub fn fec_of(&self, router: usize, label: usize) -> u32
        ensures { (t : Tables) → result ≡ fec_of ((labelled self.now t).status router label) }
    {
        self.pool.get(router, label).fec()
    }

    pub fn stage(&self, line: usize, label: usize) -> Stage
        ensures { (t : Tables) → stage_number result ≡ (labelled self.now t).stage line label }
    {
        self.stages.get(line, label)
    }

    // The label of a router that is bound to a FEC.
    pub fn bound_label(&self, router: usize, fec: u32) -> Option<Label>
        ensures { (t : Tables) → result ≡ label_of router fec (labelled self.now t) }
    {
        self.pool
            .first(router, |status| status == Status::Bound(fec))
    }

    // The smallest label at a stage on a line.
    pub fn first_at(&self, line: usize, stage: Stage) -> Option<Label>
        ensures { (t : Tables)
            → result ≡ first_label (λ l. nat_eq ((labelled self.now t).stage line l) (stage_number stage)) }
    {
        self.stages.first_at(line, stage)
    }
}
