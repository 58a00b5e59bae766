// How far the router where a line begins has been told of a label of the router where the line ends.
ghost use Rattle.std.specs.Prelude.{◌≡◌};
ghost use Rattle.model.specs.Tables.{fall};
ghost use Rattle.labels.specs.Numbers.{stage_number};

#[derive(Clone, Copy, PartialEq, Eq, Debug)]
pub enum Stage {
    // nothing to tell
    Untold = 0,
    MappingDue = 1,
    Told = 2,
    WithdrawDue = 3,
    // withdrawn, and not yet released
    Withdrawn = 4,
}

impl Stage {
    pub fn number(self) -> u8
        ensures { result ≡ stage_number self }
    {
        self as u8
    }

    // The stage once the label leaves: what was not yet told need not be, what was told must be withdrawn.
    pub(crate) fn fallen(self) -> Stage
        ensures { stage_number result ≡ fall (stage_number self) }
    {
        match self {
            Stage::Untold | Stage::MappingDue => Stage::Untold,
            Stage::Told | Stage::WithdrawDue => Stage::WithdrawDue,
            Stage::Withdrawn => Stage::Withdrawn,
        }
    }
}
