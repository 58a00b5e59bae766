// Own and route.
ghost use Rattle.std.specs.Prelude.{◌≡◌};
ghost use Rattle.plant.specs.Plants.{PlantValue};
ghost use Rattle.model.specs.Calls.{own, route};
ghost use Rattle.model.specs.History.{Did};
ghost use Rattle.network.specs.Networks.{plan_of, state_of, Fits, Keeps, own_answer};

use crate::routers::Routers;
use frame::Refusal;

impl Routers {
    pub(crate) fn own(&mut self, router: usize, fec: u32, mark: usize) -> Result<(), Refusal>
        ensures did { (v : PlantValue) → Fits self.old v → Did self.old.still (plan_of self.old.plan)
            (state_of self.old v) (own router fec mark) (own_answer result) (state_of self.new v) }
        ensures keeps { Keeps self.old self.new }
    {
        self.runs()?;
        let (router, fec, on) = self.parse_own(router, fec, mark)?;
        self.tables.own(router, fec, on);
        Ok(())
    }

    pub(crate) fn route(
        &mut self,
        router: usize,
        fec: u32,
        line: Option<usize>,
    ) -> Result<(), Refusal>
        ensures did { (v : PlantValue) → Fits self.old v → Did self.old.still (plan_of self.old.plan)
            (state_of self.old v) (route router fec line) (own_answer result) (state_of self.new v) }
        ensures keeps { Keeps self.old self.new }
    {
        self.runs()?;
        let (router, fec) = self.parse_route(router, fec, line)?;
        self.tables.route(router, fec, line);
        Ok(())
    }
}
