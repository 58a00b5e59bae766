// A label that was taken from a router's pool. Binding it or giving it back spends it, and only a spent grant may be let go.
ghost use Rattle.std.specs.Prelude.{◌≡◌, IsTrue};

use grid::{Label, Router};

pub struct Grant {
    pub(crate) router: Router,
    pub(crate) label: Label,
    // its label has been bound or given back
    pub(crate) spent: bool,
}

// `spent` is a flag, since a `Drop` that requires what never holds is refused, and without a `Drop` a forgotten label would not
// be refused by a proof: it would not compile.
impl Drop for Grant {
    fn drop(self)
        requires { IsTrue self.spent }
    {
        let Grant {
            router: _,
            label: _,
            spent: _,
        } = self;
    }
}

impl Grant {
    pub(crate) fn spend(&mut self) -> (Router, Label)
        ensures is { result ≡ (self.old.router, self.old.label) }
        ensures spent { IsTrue self.new.spent }
    {
        self.spent = true;
        (self.router, self.label)
    }

    pub fn label(&self) -> Label
        ensures { result ≡ self.now.label }
    {
        self.label
    }
}
