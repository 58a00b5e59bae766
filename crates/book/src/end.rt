// How a packet ended, and at which router. Fate and cause are side by side, as in the record that they are written into.
use model::{Cause, Fate};

#[derive(Clone, Copy, PartialEq, Eq, Debug)]
pub struct End {
    pub packet: usize,
    pub fate: Fate,
    pub router: usize,
    pub cause: Option<Cause>,
}
