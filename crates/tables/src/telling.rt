// Which message is due on a line, and the tables once it is sent.
ghost use Rattle.std.specs.Prelude.{◌≡◌, ◌<◌, ◌≤◌, IfSome, Some, None};
ghost use Rattle.plant.specs.Plants.{Shape, partner};
ghost use Rattle.model.specs.Tables.{put2, with_labels, with_remote};
ghost use Rattle.model.specs.Messages.{next_message};
ghost use Rattle.labels.specs.Numbers.{stage_number};
ghost use Rattle.labels.specs.Wirings.{Wired};
ghost use Rattle.tables.specs.Reading.{tables_of, Turned};
ghost use Rattle.tables.specs.Sending.{message_of, after_sent, news_in, first_news};

use crate::message::Message;
use crate::tables::Tables;
use frame::Kind;
use grid::{Label, Line};
use labels::Stage;
use plant::partner_of;

// That a line is one of the wiring's stays asked: a line's number cannot say of which wiring.
impl Tables {
    // News of the smallest label at a stage on the partner of a line, if there is one.
    fn news(&self, line: usize, kind: Kind, stage: Stage) -> Option<Message>
        requires { line < self.now.labels.wiring.lines }
        ensures news { (S : Shape) → Wired self.now.labels.wiring S → result ≡ news_in S line (tables_of self.now) kind stage }
        ensures real { IfSome result (λ m. (16 ≤ m.label) × (m.label < 80)) }
    {
        let label = self.labels.first_at(partner_of(line), stage)?;
        let router = self.begin(line).unwrap();
        let label = label.number();
        let fec = self.labels.fec_of(router, label);
        Some(Message { kind, fec, label })
    }

    // News of a label on a line: a withdraw comes before a mapping.
    fn first_news(&self, line: usize) -> Option<Message>
        requires { line < self.now.labels.wiring.lines }
        ensures news { (S : Shape) → Wired self.now.labels.wiring S → result ≡ first_news S line (tables_of self.now) }
        ensures real { IfSome result (λ m. (16 ≤ m.label) × (m.label < 80)) }
    {
        self.news(line, Kind::Withdraw, Stage::WithdrawDue)
            .or_else(|| self.news(line, Kind::Mapping, Stage::MappingDue))
    }

    // The message that a tell of a line sends: a due release, else a withdraw, else a mapping, the smallest label in each.
    pub fn next_message(&self, line: usize) -> Option<Message>
        requires { line < self.now.labels.wiring.lines }
        ensures due { (S : Shape) → Wired self.now.labels.wiring S → result ≡ message_of (next_message S line (tables_of self.now)) }
        ensures real { IfSome result (λ m. (16 ≤ m.label) × (m.label < 80)) }
    {
        self.releases
            .first(line)
            .map(|(label, fec)| Message {
                kind: Kind::Release,
                fec,
                label: label.number(),
            })
            .or_else(|| self.first_news(line))
    }

    // A label of the router where a line begins was told over the line.
    fn told(&mut self, line: Line, label: Label, stage: Stage)
        ensures { Turned self.old (λ t. with_labels t.status (put2 t.stage (partner line) label (stage_number stage)) t) self.new }
    {
        // as `line_back` of the network: a function for two uses is no plainer
        let back = Line::new(partner_of(line.number())).unwrap();
        self.labels.set_stage(back, label, stage);
    }

    // A release was sent on a line.
    fn paid(&mut self, line: Line, label: Label)
        ensures { Turned self.old (λ t. with_remote t.remote (put2 t.due line label None) t) self.new }
    {
        self.releases.set(line, label, None);
    }

    // A message was sent on a line, and is no longer due. A label that no router uses is never due, so a message of one changes nothing.
    pub fn sent(&mut self, line: Line, message: Message)
        ensures sent { 16 ≤ message.label → message.label < 80 → Turned self.old (λ t. after_sent line message t) self.new }
        ensures unreal { ((16 ≤ message.label) × (message.label < 80) → ⊥) → self.new ≡ self.old }
    {
        let Some(label) = Label::new(message.label) else {
            return;
        };
        match message.kind {
            Kind::Data => {}
            Kind::Release => self.paid(line, label),
            Kind::Withdraw => self.told(line, label, Stage::Withdrawn),
            Kind::Mapping => self.told(line, label, Stage::Told),
        }
    }
}
