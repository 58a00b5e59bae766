// What is to be done with a packet in hand.
use grid::Label;
use model::Cause;

#[derive(Clone, Copy)]
pub enum Verdict {
    Deliver,
    Drop(Cause),
    // over a line, with a label
    Forward { line: usize, label: Label },
}
