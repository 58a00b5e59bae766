// Marks and next hops are asked and set.
ghost use Rattle.std.specs.Prelude.{◌≡◌, true, false, None};
ghost use Rattle.model.specs.Tables.{put2};
ghost use Rattle.tables.specs.Rows.{is_below};
ghost use Rattle.tables.specs.Grids.{owners_of, hops_of};

use crate::routes::Routes;
use grid::{FecNumber, Grid, Router};

// One line each over a grid, as in Releases. That a next hop is below `lines` stays asked: a number cannot say of how many lines.
impl Routes {
    // No router owns a FEC or has a next hop; a next hop may be one of so many lines.
    pub fn new(lines: usize) -> Routes
        ensures owners { owners_of result ≡ (λ _ _. false) }
        ensures hops { hops_of result ≡ (λ _ _. None) }
        ensures lines { result.lines ≡ lines }
    {
        Routes {
            owner: Grid::filled(false),
            next: Grid::filled(None),
            lines,
        }
    }

    // Whether a router owns a FEC.
    pub fn owns(&self, router: usize, fec: u32) -> bool
        ensures { result ≡ owners_of self.now router fec }
    {
        self.owner.get(router, fec as usize).unwrap_or(false)
    }

    // The line of a router's next hop for a FEC.
    pub fn next_hop(&self, router: usize, fec: u32) -> Option<usize>
        ensures hop { result ≡ hops_of self.now router fec }
        ensures real { is_below self.now.lines result ≡ true }
    {
        self.next.get(router, fec as usize).flatten()
    }

    pub fn set_owner(&mut self, router: Router, fec: FecNumber, on: bool)
        ensures owners { owners_of self.new ≡ put2 (owners_of self.old) router fec on }
        ensures hops { hops_of self.new ≡ hops_of self.old }
        ensures lines { self.new.lines ≡ self.old.lines }
    {
        self.owner.set(router, fec, on);
    }

    pub fn set_next_hop(&mut self, router: Router, fec: FecNumber, line: Option<usize>)
        requires { is_below self.old.lines line ≡ true }
        ensures hops { hops_of self.new ≡ put2 (hops_of self.old) router fec line }
        ensures owners { owners_of self.new ≡ owners_of self.old }
        ensures lines { self.new.lines ≡ self.old.lines }
    {
        self.next.set(router, fec, line);
    }
}
