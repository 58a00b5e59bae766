// What the ring plant holds: a row for each line, and the caller's places for frames.
ghost use Rattle.std.specs.Prelude.{◌≡◌};
ghost use Rattle.ring.specs.Order.{RingOk};

use crate::row::Row;
use frame::{Frame, Refusal};

#[derive(Drop)]
pub struct Ring {
    // an array with the number of rows in use: making a plant cannot fail, so it takes no memory but the caller's places
    pub(crate) rows: [Row; 32],
    pub(crate) lines: usize,
    pub(crate) places: Vec<Frame>,
    // an Option beside the rows and no Result of them: a plant with a fault is a plant too, without lines
    pub(crate) fault: Option<Refusal>,
    ghost sound: { RingOk rows lines places.items },
}

impl Ring {
    // Why the plant has no lines, if a rule was broken when it was made. An Option, since to ask is no call that can be refused.
    pub fn fault(&self) -> Option<Refusal>
        ensures { result ≡ self.now.fault }
    {
        self.fault
    }
}
