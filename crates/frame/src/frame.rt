// What a line carries: data with its packet number in `a` and 0 in `b`, or a message with FEC number and label.
use crate::kind::Kind;
use crate::stack::Stack;

#[derive(Clone, Copy, Default)]
pub struct Frame {
    pub kind: Kind,
    pub stack: Stack,
    pub a: u32,
    pub b: u32,
}
