// With which refusal own, route and inject are met, the first rule that is broken, or else what their arguments name.
ghost use Rattle.std.specs.Prelude.{◌≡◌, ◌<◌, true, length, if◌then◌else◌, IfOk, Some, None, nat_eq, nat_le};
ghost use Rattle.tables.specs.Rows.{is_below};
ghost use Rattle.frame.specs.Numbers.{refused_by};
ghost use Rattle.lookup.specs.Plans.{fecs_of, routers_of};
ghost use Rattle.plant.specs.Plants.{Shape, PlantValue};
ghost use Rattle.model.specs.Calls.{own_refusal, hop_refusal, route_refusal, inject_refusal};
ghost use Rattle.book.specs.Books.{book_of};
ghost use Rattle.labels.specs.Wirings.{Wired};
ghost use Rattle.network.specs.Networks.{plan_of, state_of, wiring_of};

use crate::hand::InHand;
use crate::routers::Routers;
use frame::Refusal;
use grid::{FecNumber, Router};

impl Routers {
    // Nothing is done while the network stands still.
    pub(crate) fn runs(&self) -> Result<(), Refusal>
        ensures { refused_by result ≡ (if self.now.still then Some 22 else None) }
    {
        if self.still {
            return Err(Refusal::Unfit);
        }
        Ok(())
    }

    // A router of the plan.
    fn router(&self, router: usize) -> Result<Router, Refusal>
        ensures refused { refused_by result ≡ (if nat_le (routers_of self.now.plan) router then Some 4 else None) }
        ensures same { IfOk result (λ r. r ≡ router) }
    {
        if router >= self.plan.routers() as usize {
            return Err(Refusal::NoRouter);
        }
        Ok(Router::new(router).unwrap())
    }

    // A FEC of the plan.
    pub(crate) fn fec(&self, fec: u32) -> Result<FecNumber, Refusal>
        ensures refused { refused_by result ≡ (if nat_le (length (fecs_of self.now.plan)) fec then Some 5 else None) }
        ensures same { IfOk result (λ f. f ≡ fec) }
    {
        if fec as usize >= self.plan.len() {
            return Err(Refusal::NoFec);
        }
        Ok(FecNumber::new(fec as usize).unwrap())
    }

    // What own names: the router and the FEC, and whether the mark is set.
    pub(crate) fn parse_own(
        &self,
        router: usize,
        fec: u32,
        mark: usize,
    ) -> Result<(Router, FecNumber, bool), Refusal>
        ensures refused { refused_by result ≡ own_refusal (plan_of self.now.plan) router fec mark }
        ensures same { IfOk result (λ n. (n.0 ≡ router) × (n.1 ≡ fec) × (n.2 ≡ nat_eq mark 1)) }
    {
        let router = self.router(router)?;
        let fec = self.fec(fec)?;
        if mark >= 2 {
            return Err(Refusal::OutOfRange);
        }
        Ok((router, fec, mark == 1))
    }

    // A next hop is a line that begins at the router.
    fn check_hop(&self, router: usize, line: usize) -> Result<(), Refusal>
        ensures refused { (S : Shape) → Wired (wiring_of self.now) S → refused_by result ≡ hop_refusal S router (Some line) }
        ensures good { IfOk result (λ _. is_below (wiring_of self.now).lines (Some line) ≡ true) }
    {
        let Some(from) = self.tables.begin(line) else {
            return Err(Refusal::NoLine);
        };
        if from != router {
            return Err(Refusal::OtherRouter);
        }
        Ok(())
    }

    // What route names: the router and the FEC. The line is one for a next hop.
    pub(crate) fn parse_route(
        &self,
        router: usize,
        fec: u32,
        line: Option<usize>,
    ) -> Result<(Router, FecNumber), Refusal>
        ensures refused { (S : Shape) → Wired (wiring_of self.now) S → refused_by result ≡ route_refusal (plan_of self.now.plan) S router fec line }
        ensures good { IfOk result (λ n. (n.0 ≡ router) × (n.1 ≡ fec) × (is_below (wiring_of self.now).lines line ≡ true)) }
    {
        let from = self.router(router)?;
        let fec = self.fec(fec)?;
        if let Some(line) = line {
            self.check_hop(router, line)?;
        }
        Ok((from, fec))
    }

    // The packet in hand that inject names, while the book has room for it.
    pub(crate) fn parse_inject(&self, router: usize, ttl: usize) -> Result<InHand, Refusal>
        ensures refused { (v : PlantValue) → refused_by result ≡ inject_refusal (plan_of self.now.plan) router ttl (state_of self.now v) }
        ensures good { IfOk result (λ h. (h ≡ record { router = router; ttl = ttl }) × (length (book_of self.now.book) < 512)) }
    {
        self.router(router)?;
        if ttl >= 256 {
            return Err(Refusal::OutOfRange);
        }
        if self.book.is_full() {
            return Err(Refusal::BookFull);
        }
        Ok(InHand {
            router,
            ttl: ttl as u8,
        })
    }
}
