// What the labels need to know of the lines: how many there are, and the routers where each begins and ends.
ghost use Rattle.std.specs.Prelude.{◌≡◌, ◌≤◌};

#[derive(Clone, Copy)]
pub struct Wiring {
    pub(crate) lines: usize,
    // an array with its length beside: a wiring is copied, and made by a function that cannot fail, so it takes no memory
    pub(crate) ends: [(usize, usize); 48],
    ghost few: { lines ≤ 48 },
}

impl Wiring {
    pub fn lines(&self) -> usize
        ensures { result ≡ self.now.lines }
    {
        self.lines
    }
}
