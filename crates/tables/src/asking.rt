// Questions of the tables. What is out of range is off, none, free or untold, so each takes any numbers. Most hand on to the one
// table that knows, in one line.
ghost use Rattle.std.specs.Prelude.{◌≡◌, true};
ghost use Rattle.model.specs.Tables.{may_bind};
ghost use Rattle.labels.specs.Pools.{status_of};
ghost use Rattle.labels.specs.Numbers.{stage_number};
ghost use Rattle.labels.specs.Wirings.{begin_of, end_of};
ghost use Rattle.tables.specs.Rows.{is_below};
ghost use Rattle.tables.specs.Reading.{tables_of};

use crate::tables::Tables;
use grid::Label;
use labels::{Stage, Status};

impl Tables {
    // Whether a router owns a FEC.
    pub fn owns(&self, router: usize, fec: u32) -> bool
        ensures { result ≡ (tables_of self.now).owner router fec }
    {
        self.routes.owns(router, fec)
    }

    // The line of a router's next hop for a FEC.
    pub fn next_hop(&self, router: usize, fec: u32) -> Option<usize>
        ensures hop { result ≡ (tables_of self.now).hop router fec }
        ensures real { is_below self.now.routes.lines result ≡ true }
    {
        self.routes.next_hop(router, fec)
    }

    // The label for a FEC that was learned over a line.
    pub fn remote(&self, line: usize, fec: u32) -> Option<Label>
        ensures { result ≡ (tables_of self.now).remote line fec }
    {
        self.remotes.get(line, fec)
    }

    // The FEC of the release of a label that is due on a line.
    pub fn due(&self, line: usize, label: usize) -> Option<u32>
        ensures { result ≡ (tables_of self.now).due line label }
    {
        self.releases.get(line, label)
    }

    // Whether a router may bind a label to a FEC.
    pub fn may_bind(&self, router: usize, fec: u32) -> bool
        ensures { result ≡ may_bind self.now.independent router fec (tables_of self.now) }
    {
        let over = |line| self.independent || self.remote(line, fec).is_some();
        self.owns(router, fec) || self.next_hop(router, fec).is_some_and(over)
    }

    // What a router has a label for.
    pub fn status(&self, router: usize, label: usize) -> Status
        ensures { status_of result ≡ (tables_of self.now).status router label }
    {
        self.labels.status(router, label)
    }

    // How far a label of the router where a line ends has been told at its other end.
    pub fn stage(&self, line: usize, label: usize) -> Stage
        ensures { stage_number result ≡ (tables_of self.now).stage line label }
    {
        self.labels.stage(line, label)
    }

    // The router where a line begins. Two questions, as the wiring has: most callers need one end only.
    pub fn begin(&self, line: usize) -> Option<usize>
        ensures { result ≡ begin_of self.now.labels.wiring line }
    {
        self.labels.wiring().from(line)
    }

    // The router where a line ends.
    pub fn end(&self, line: usize) -> Option<usize>
        ensures { result ≡ end_of self.now.labels.wiring line }
    {
        self.labels.wiring().to(line)
    }
}
