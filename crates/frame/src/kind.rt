// What a frame is: data, or a message of label distribution. Each case has one published number.
ghost use Rattle.std.specs.Prelude.{◌≡◌, Some};
ghost use Rattle.frame.specs.Numbers.{kind_number};
ghost use Rattle.frame.specs.Words.{kind_text};

use std::fmt;

#[derive(Clone, Copy, PartialEq, Eq, Debug, Default)]
pub enum Kind {
    #[default]
    Data = 0,
    Mapping = 1,
    Withdraw = 2,
    Release = 3,
}

impl Kind {
    pub fn number(self) -> u8
        ensures { result ≡ kind_number self }
    {
        self as u8
    }
}

impl fmt::Display for Kind {
    ghost output = { λ k. Some (kind_text k) };

    fn fmt<W: fmt::Write>(&self, f: &mut fmt::Formatter<W>) -> fmt::Result {
        f.write_str(match self {
            Kind::Data => "data",
            Kind::Mapping => "mapping",
            Kind::Withdraw => "withdraw",
            Kind::Release => "release",
        })
    }
}
