// Messages that come out of a line, and what the router there makes of them.
ghost use Rattle.std.specs.Prelude.{◌≡◌, ◌<◌, false, List, Some, IfSome, is_some, nat_eq};
ghost use Rattle.frame.specs.declared.entry.Entry.{Entry};
ghost use Rattle.frame.specs.declared.kind.Kind.TheVariants.{Mapping, Withdraw, Release};
ghost use Rattle.plant.specs.Plants.{PlantValue, partner};
ghost use Rattle.model.specs.Tables.{withdrawn};
ghost use Rattle.model.specs.Packets.{at, is_waiting};
ghost use Rattle.book.specs.Books.{book_of};
ghost use Rattle.model.specs.Calls.{in_range, arriving, polled};
ghost use Rattle.labels.specs.Wirings.{end_of};
ghost use Rattle.tables.specs.Reading.{tables_of};
ghost use Rattle.network.specs.Networks.{plan_of, state_of, wiring_of, Fits};
ghost use Rattle.network.specs.Dealing.{Took};

use crate::routers::Routers;
use grid::{FecNumber, Label, Line, Router};
use labels::Stage;
use model::Met;
use plant::partner_of;

// The line back to where a line began. The tables' `told` writes the same expression: a function for two uses is no plainer.
fn line_back(line: usize) -> Line
    requires { line < 48 }
    ensures { result ≡ partner line }
{
    Line::new(partner_of(line)).unwrap()
}

// Line, FEC and label stay three arguments: they are what came in a frame, whose numbers `named` judges at once.
// That the network runs stays asked of each function: a type that says so would lend the routers twice, and be no plainer.
// That a line is one of the wiring's stays asked too: a line's number cannot say of which wiring.
impl Routers {
    // The FEC and the label that a message names, if there are such.
    fn named(&self, fec: u32, label: u32) -> Option<(FecNumber, Label)>
        ensures in_range { is_some result ≡ in_range (plan_of self.now.plan) fec label }
        ensures same { IfSome result (λ n. (n.0 ≡ fec) × (n.1 ≡ label)) }
    {
        let fec = self.fec(fec).ok()?;
        let label = Label::new(label as usize)?;
        Some((fec, label))
    }

    // Whether there is such a packet, and it has not ended.
    pub(crate) fn awaits(&self, packet: u32) -> bool
        ensures { result ≡ is_waiting (at (book_of self.now.book) packet) }
    {
        self.book.is_waiting(packet as usize)
    }

    // The router where a line ends.
    pub(crate) fn end_of(&self, line: usize) -> Router
        requires runs { self.now.still ≡ false }
        requires line { line < (wiring_of self.now).lines }
        ensures { end_of (wiring_of self.now) line ≡ Some result }
    {
        Router::new(self.tables.end(line).unwrap()).unwrap()
    }

    // A mapping came out of a line.
    pub(crate) fn mapping(&mut self, line: usize, fec: u32, label: u32) -> Met
        requires runs { self.old.still ≡ false }
        requires line { line < (wiring_of self.old).lines }
        ensures { (v : PlantValue) (st : List Entry) → Fits self.old v → Took self.old
            (arriving (plan_of self.old.plan) v.shape Mapping line st fec label (state_of self.old v)) (polled result line) self.new }
    {
        let Some((fec, label)) = self.named(fec, label) else {
            return Met::Stray;
        };
        let router = self.end_of(line);
        self.tables.learn(line_back(line), router, fec, label);
        Met::Message
    }

    // A withdraw came out of a line. It names the label that is known.
    pub(crate) fn withdraw(&mut self, line: usize, fec: u32, label: u32) -> Met
        requires runs { self.old.still ≡ false }
        requires line { line < (wiring_of self.old).lines }
        ensures { (v : PlantValue) (st : List Entry) → Fits self.old v → Took self.old
            (arriving (plan_of self.old.plan) v.shape Withdraw line st fec label (state_of self.old v)) (polled result line) self.new }
    {
        let Some((fec, label)) = self.named(fec, label) else {
            return Met::Stray;
        };
        if self.tables.remote(partner_of(line), fec.number() as u32) != Some(label) {
            return Met::Stray;
        }
        let router = self.end_of(line);
        self.tables.unlearn(line_back(line), router, fec, label);
        Met::Message
    }

    // Whether a release of a label is awaited on a line.
    fn is_awaited(&self, line: usize, label: Label) -> bool
        ensures { result ≡ nat_eq ((tables_of self.now.tables).stage line label) withdrawn }
    {
        self.tables.stage(line, label.number()) == Stage::Withdrawn
    }

    // A release came out of a line. It is awaited.
    pub(crate) fn release(&mut self, line: usize, fec: u32, label: u32) -> Met
        requires line { line < (wiring_of self.old).lines }
        ensures { (v : PlantValue) (st : List Entry) → Fits self.old v → Took self.old
            (arriving (plan_of self.old.plan) v.shape Release line st fec label (state_of self.old v)) (polled result line) self.new }
    {
        let Some((_, label)) = self.named(fec, label) else {
            return Met::Stray;
        };
        if !self.is_awaited(line, label) {
            return Met::Stray;
        }
        self.tables.released(Line::new(line).unwrap(), label);
        Met::Message
    }
}
