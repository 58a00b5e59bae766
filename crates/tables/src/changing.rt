// What own, route and arriving messages do to the tables. Each sets one table alone and then refreshes; the tables differ in
// what is set, and the model has a word for each. A router and a FEC, or a line and a label, stay two arguments: they are the
// row and the column of a grid, whose `set` takes them so.
ghost use Rattle.std.specs.Prelude.{◌≡◌, ◌<◌, true, Some, None};
ghost use Rattle.model.specs.Tables.{put2, refresh, with_routes, with_remote, with_labels, tidy, untold};
ghost use Rattle.tables.specs.Rows.{is_below};
ghost use Rattle.tables.specs.Reading.{tables_of, Became, Turned};

use crate::tables::Tables;
use grid::{FecNumber, Label, Line, Router};

impl Tables {
    // Brings a router's label for a FEC up to date.
    fn refresh(&mut self, router: Router, fec: FecNumber)
        ensures { Became self.old (λ i S t. refresh i S router fec t) self.new }
    {
        let fec = fec.number() as u32;
        let may = self.may_bind(router.number(), fec);
        self.labels.refresh(may, router, fec);
    }

    // Sets the owner mark alone.
    fn mark(&mut self, router: Router, fec: FecNumber, on: bool)
        ensures { Turned self.old (λ t. with_routes (put2 t.owner router fec on) t.hop t) self.new }
    {
        self.routes.set_owner(router, fec, on);
    }

    // Sets a router's owner mark for a FEC, and refreshes.
    pub fn own(&mut self, router: Router, fec: FecNumber, on: bool)
        ensures { Became self.old (λ i S t. refresh i S router fec (with_routes (put2 t.owner router fec on) t.hop t)) self.new }
    {
        self.mark(router, fec, on);
        self.refresh(router, fec);
    }

    // Sets the next hop alone.
    fn point(&mut self, router: Router, fec: FecNumber, line: Option<usize>)
        requires { is_below self.old.routes.lines line ≡ true }
        ensures { Turned self.old (λ t. with_routes t.owner (put2 t.hop router fec line) t) self.new }
    {
        self.routes.set_next_hop(router, fec, line);
    }

    // Sets a router's next hop for a FEC, and refreshes.
    pub fn route(&mut self, router: Router, fec: FecNumber, line: Option<usize>)
        requires { is_below self.old.routes.lines line ≡ true }
        ensures { Became self.old (λ i S t. refresh i S router fec (with_routes t.owner (put2 t.hop router fec line) t)) self.new }
    {
        self.point(router, fec, line);
        self.refresh(router, fec);
    }

    // Sets the remote label alone.
    fn note(&mut self, line: Line, fec: FecNumber, label: Option<Label>)
        ensures { Turned self.old (λ t. with_remote (put2 t.remote line fec label) t.due t) self.new }
    {
        self.remotes.set(line, fec, label);
    }

    // A mapping came to a router: its label is learned for the line back, and the router refreshed.
    pub fn learn(&mut self, back: Line, router: Router, fec: FecNumber, label: Label)
        ensures { Became self.old (λ i S t. refresh i S router fec (with_remote (put2 t.remote back fec (Some label)) t.due t)) self.new }
    {
        self.note(back, fec, Some(label));
        self.refresh(router, fec);
    }

    // A release of a label falls due.
    fn owe(&mut self, line: Line, fec: FecNumber, label: Label)
        ensures { Turned self.old (λ t. with_remote t.remote (put2 t.due line label (Some fec)) t) self.new }
    {
        self.releases.set(line, label, Some(fec.number() as u32));
    }

    // A withdraw came to a router: its label is no longer known for the line back, a release of it falls due there, and the
    // router is refreshed.
    pub fn unlearn(&mut self, back: Line, router: Router, fec: FecNumber, label: Label)
        ensures { Became self.old (λ i S t. refresh i S router fec (with_remote (put2 t.remote back fec None) (put2 t.due back label (Some fec)) t)) self.new }
    {
        self.note(back, fec, None);
        self.owe(back, fec, label);
        self.refresh(router, fec);
    }

    // A release of a label came over a line.
    pub fn released(&mut self, line: Line, label: Label)
        requires { line < self.old.labels.wiring.lines }
        ensures { Became self.old (λ i S t. tidy S (S.line line).to label (with_labels t.status (put2 t.stage line label untold) t)) self.new }
    {
        self.labels.release(line, label);
    }
}
