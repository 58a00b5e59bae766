// A message that is due on a line: its kind, and the FEC and label that it names.
use frame::Kind;

// The label is a plain number, and no Label: a struct that holds one is not copied when it is used again. What makes a message
// says that the label is one that routers use.
#[derive(Clone, Copy)]
pub struct Message {
    pub kind: Kind,
    pub fec: u32,
    pub label: usize,
}
