// What a router has a label for.
ghost use Rattle.std.specs.Prelude.{◌≡◌};
ghost use Rattle.model.specs.Tables.{fec_of};
ghost use Rattle.labels.specs.Pools.{status_of};

#[derive(Clone, Copy, PartialEq, Eq, Debug)]
pub enum Status {
    Free,
    // granted, and not yet bound or given back
    Taken,
    // bound to a FEC
    Bound(u32),
    // leaving a FEC
    Leaving(u32),
}

impl Status {
    // The FEC that a label is bound to or leaving, else 0. No Option: the one use writes it into a message, which has a number
    // there in any case, and the model's `fec_of` has 0 too.
    pub fn fec(self) -> u32
        ensures { result ≡ fec_of (status_of self) }
    {
        match self {
            Status::Free | Status::Taken => 0,
            Status::Bound(fec) | Status::Leaving(fec) => fec,
        }
    }
}
