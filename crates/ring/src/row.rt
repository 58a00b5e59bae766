// One line of the ring plant: its ends and cap, where its places begin, and which of them are in use.
ghost use Rattle.std.specs.Prelude.{◌≡◌, ◌+◌, ◌-◌, ◌<◌};
ghost use Rattle.ring.specs.Rows.{next, spot, advanced, extended};

#[derive(Clone, Copy, Default)]
pub struct Row {
    pub from: usize,
    pub to: usize,
    pub cap: usize,
    pub base: usize,
    pub head: usize,
    pub len: usize,
}

// A place counted past the end goes on from the start.
pub(crate) fn wrapped(cap: usize, sum: usize) -> usize
    ensures { result ≡ spot cap sum }
{
    if sum < cap { sum } else { sum - cap }
}

impl Row {
    // The row without its oldest frame.
    pub(crate) fn advance(self) -> Row
        requires some { 0 < self.len }
        requires head { self.head < self.cap }
        ensures { result ≡ advanced self }
    {
        let next = self.head + 1;
        let head = if next == self.cap { 0 } else { next };
        Row {
            head,
            len: self.len - 1,
            ..self
        }
    }

    // The row with one frame more.
    pub(crate) fn extend(self) -> Row
        requires { self.len < self.cap }
        ensures { result ≡ extended self }
    {
        Row {
            len: self.len + 1,
            ..self
        }
    }
}
