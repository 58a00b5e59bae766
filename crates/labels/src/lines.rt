// A wiring is built line by line, and asked.
ghost use Rattle.std.specs.Prelude.{◌≡◌};
ghost use Rattle.labels.specs.Wirings.{ends_of, begin_of, end_of, leads_into, Adds};

use crate::wiring::Wiring;

impl Wiring {
    pub fn none() -> Wiring
        ensures { result.lines ≡ 0 }
    {
        Wiring {
            lines: 0,
            ends: [(0, 0); 48],
        }
    }

    // One line more, the last; false, and nothing changes, if there are 48. A bool: one thing can fail, and a Result would need an
    // error that says nothing.
    pub fn add(&mut self, from: usize, to: usize) -> bool
        ensures { Adds self.old from to result self.new }
    {
        if self.lines >= 48 {
            return false;
        }
        self.ends[self.lines] = (from, to);
        self.lines += 1;
        true
    }

    // Where a line begins and ends.
    fn ends(&self, line: usize) -> Option<(usize, usize)>
        ensures { result ≡ ends_of self.now line }
    {
        self.ends[..self.lines].get(line).copied()
    }

    // Where a line begins.
    pub fn from(&self, line: usize) -> Option<usize>
        ensures { result ≡ begin_of self.now line }
    {
        self.ends(line).map(|ends| ends.0)
    }

    // Where a line ends.
    pub fn to(&self, line: usize) -> Option<usize>
        ensures { result ≡ end_of self.now line }
    {
        self.ends(line).map(|ends| ends.1)
    }

    // Whether a line ends at a router.
    pub(crate) fn leads_into(&self, line: usize, router: usize) -> bool
        ensures { result ≡ leads_into self.now line router }
    {
        self.to(line) == Some(router)
    }
}
