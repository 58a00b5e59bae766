// The status of each label of each router, in one flat array. Labels are granted from here.
ghost use Rattle.std.specs.Prelude.{◌≡◌, ℕ, Bool, IfSome, IsFalse};
ghost use Rattle.model.specs.Tables.{put2, first_label};
ghost use Rattle.labels.specs.Pools.{slots, Tests};
ghost use Rattle.labels.specs.Grants.{smallest_open, Takes};

use crate::grant::Grant;
use crate::status::Status;
use grid::{Grid, Label, Router};

// Its new, get and put are those of Stages over another grid: one line each, which names what the cells say.
#[derive(Drop)]
pub struct Pool {
    pub(crate) at: Grid<Status, 16, 16, 80, 1024>,
}

impl Pool {
    pub fn new() -> Pool
        ensures { (router label : ℕ) → slots result router label ≡ Status.Free }
    {
        Pool {
            at: Grid::filled(Status::Free),
        }
    }

    pub fn get(&self, router: usize, label: usize) -> Status
        ensures { result ≡ slots self.now router label }
    {
        self.at.get(router, label).unwrap_or(Status::Free)
    }

    fn put(&mut self, router: Router, label: Label, status: Status)
        ensures { slots self.new ≡ put2 (slots self.old) router label status }
    {
        self.at.set(router, label, status);
    }

    // A label of a router is leaving a FEC.
    pub(crate) fn leave(&mut self, router: Router, label: Label, fec: u32)
        ensures { slots self.new ≡ put2 (slots self.old) router label (Status.Leaving fec) }
    {
        self.put(router, label, Status::Leaving(fec));
    }

    // A label of a router is free.
    pub(crate) fn free(&mut self, router: Router, label: Label)
        ensures { slots self.new ≡ put2 (slots self.old) router label Status.Free }
    {
        self.put(router, label, Status::Free);
    }

    // The smallest label of a router with a status that passes.
    pub(crate) fn first<F: Fn(Status) -> bool>(&self, router: usize, sought: F) -> Option<Label>
        requires { F.IsAlwaysCallable sought }
        ensures { (p : Status → Bool) → Tests (F.post sought) p
            → result ≡ first_label (λ l. p (slots self.now router l)) }
    {
        Label::smallest(|label| sought(self.get(router, label.number())))
    }

    // The smallest free label of a router.
    fn first_free(&self, router: usize) -> Option<Label>
        ensures { result ≡ smallest_open self.now router }
    {
        self.first(router, |status| matches!(status, Status::Free))
    }

    // Grants the smallest free label of a router. It is taken until the grant is spent, so no other grant is of it.
    pub fn take(&mut self, router: Router) -> Option<Grant>
        ensures takes { Takes self.old router result self.new }
        ensures unspent { IfSome result (λ g. IsFalse g.spent) }
    {
        let label = self.first_free(router.number())?;
        self.put(router, label, Status::Taken);
        Some(Grant {
            router,
            label,
            spent: false,
        })
    }

    // Binds a granted label to a FEC.
    pub fn bind(&mut self, mut grant: Grant, fec: u32)
        ensures { slots self.new
            ≡ put2 (slots self.old) grant.router grant.label (Status.Bound fec) }
    {
        let (router, label) = grant.spend();
        self.put(router, label, Status::Bound(fec));
    }

    // A granted label is free again.
    pub fn give_back(&mut self, mut grant: Grant)
        ensures { slots self.new ≡ put2 (slots self.old) grant.router grant.label Status.Free }
    {
        let (router, label) = grant.spend();
        self.free(router, label);
    }
}
