// How labels are bound, let go and freed. Each says that the wiring stays: a type cannot say what a call leaves as it was.
ghost use Rattle.std.specs.Prelude.{◌≡◌, ◌<◌, Bool, ◌&&◌, None};
ghost use Rattle.plant.specs.Plants.{Shape};
ghost use Rattle.model.specs.Tables.{Tables, blank, untold, put2, with_labels, free_label, may_bind, grant, let_go, unbind, tidy, refresh, is_leaving};
ghost use Rattle.labels.specs.Numbers.{stage_number};
ghost use Rattle.labels.specs.Reading.{labelled};
ghost use Rattle.labels.specs.Pools.{statuses_of};
ghost use Rattle.labels.specs.Stagings.{stages_of};
ghost use Rattle.labels.specs.Wirings.{Wired, quiet_on};

use crate::labels::Labels;
use crate::pool::Pool;
use crate::stage::Stage;
use crate::stages::Stages;
use crate::status::Status;
use crate::wiring::Wiring;
use grid::{Label, Line, Router};

impl Labels {
    // All labels free, and nothing told.
    pub fn new(wiring: Wiring) -> Labels
        ensures wired { result.wiring ≡ wiring }
        ensures empty { (t : Tables) → labelled result t ≡ with_labels blank.status blank.stage t }
    {
        Labels {
            wiring,
            pool: Pool::new(),
            stages: Stages::new(),
        }
    }

    // One stage becomes another.
    pub fn set_stage(&mut self, line: Line, label: Label, stage: Stage)
        ensures put { (t : Tables) → labelled self.new t ≡ with_labels (labelled self.old t).status
            (put2 (labelled self.old t).stage line label (stage_number stage)) t }
        ensures kept { self.new.wiring ≡ self.old.wiring }
    {
        self.stages.put(line, label, stage);
    }

    // A label is released on a line: nothing is left to tell there, and if it was leaving and is done with everywhere it is free.
    pub fn release(&mut self, line: Line, label: Label)
        requires { line < self.old.wiring.lines }
        ensures released { (S : Shape) (t : Tables) → Wired self.old.wiring S
            → labelled self.new t ≡ tidy S (S.line line).to label
            (with_labels (labelled self.old t).status (put2 (labelled self.old t).stage line label untold) t) }
        ensures kept { self.new.wiring ≡ self.old.wiring }
    {
        let router = self.wiring.to(line.number()).unwrap();
        self.stages.untell(line, label);
        self.tidy(router, label);
    }

    // Brings a router's label for a FEC up to date, given whether it may bind the FEC.
    pub fn refresh(&mut self, may: bool, router: Router, fec: u32)
        ensures refreshed { (independent : Bool) (S : Shape) (t : Tables) → Wired self.old.wiring S
            → may_bind independent router fec (labelled self.old t) ≡ may
            → labelled self.new t ≡ refresh independent S router fec (labelled self.old t) }
        ensures kept { self.new.wiring ≡ self.old.wiring }
    {
        match (may, self.bound_label(router.number(), fec)) {
            (true, None) => self.bind_first(router, fec),
            (false, Some(label)) => self.unbind(router, fec, label),
            _ => {}
        }
    }

    // The smallest free label of a router, if there is one, is bound to a FEC, and a mapping of it falls due.
    fn bind_first(&mut self, router: Router, fec: u32)
        ensures bound { (S : Shape) (t : Tables) → Wired self.old.wiring S
            → labelled self.new t
            ≡ grant S router fec None (free_label router (labelled self.old t)) (labelled self.old t) }
        ensures kept { self.new.wiring ≡ self.old.wiring }
    {
        if let Some(granted) = self.pool.take(router) {
            let label = granted.label();
            self.pool.bind(granted, fec);
            self.stages
                .tell(&self.wiring, router, label, |_| Stage::MappingDue);
        }
    }

    // A label that is bound to a FEC leaves it, and a withdraw falls due where it was told.
    fn unbind(&mut self, router: Router, fec: u32, label: Label)
        ensures unbound { (S : Shape) (t : Tables) → Wired self.old.wiring S
            → labelled self.new t ≡ unbind S router fec label (labelled self.old t) }
        ensures kept { self.new.wiring ≡ self.old.wiring }
    {
        self.pool.leave(router, label, fec);
        self.stages.tell(&self.wiring, router, label, Stage::fallen);
        self.tidy(router.number(), label);
    }

    // A leaving label becomes free once it is done with on all lines into its router.
    fn tidy(&mut self, router: usize, label: Label)
        ensures tidied { (S : Shape) (t : Tables) → Wired self.old.wiring S
            → labelled self.new t ≡ tidy S router label (labelled self.old t) }
        ensures kept { self.new.wiring ≡ self.old.wiring }
    {
        if self.is_done(router, label) {
            self.pool.free(Router::new(router).unwrap(), label);
        }
    }

    // Whether a label is leaving, and nothing is left to tell of it.
    fn is_done(&self, router: usize, label: Label) -> bool
        ensures { result ≡ (is_leaving (statuses_of self.now.pool router label)
            && quiet_on self.now.wiring router label (stages_of self.now.stages)) }
    {
        let label = label.number();
        matches!(self.pool.get(router, label), Status::Leaving(_))
            && self.stages.is_quiet(&self.wiring, router, label)
    }
}
