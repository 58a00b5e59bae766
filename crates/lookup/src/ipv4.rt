// IPv4: 32 bits in one word.
ghost use Rattle.lookup.specs.Agreement.{agree4};
ghost use Rattle.lookup.specs.Fecs.{held4};
ghost use Rattle.lookup.specs.Agree.{agree_equal, agree_apart, symmetric4, between4};
ghost use Rattle.std.proofs.Common.{ap, rules};
ghost use Rattle.std.specs.Prelude.{ℕ};
ghost use Rattle.lookup.specs.declared.address.Ipv4.{Ipv4};

use crate::address::Ipv4;
use crate::fec::{Fec, Prefix};
use crate::kind::{AddressKind, one_among};

impl AddressKind for Ipv4 {
    ghost WIDTH = { 32 };

    ghost value = { λ a. a.bits };

    ghost agrees = { agree4 };

    ghost held = { held4 };

    const WIDTH: u8 = 32;

    ghost within = { Prim.search rules };

    ghost equal = { λ a. agree_equal 32 a.bits };

    ghost apart = { λ a b e. let of : ℕ → Ipv4 = λ x. record { bits = x } in ap of (agree_apart 31 a.bits b.bits e) };

    ghost symmetric = { symmetric4 };

    ghost between = { between4 };

    fn agree(&self, other: &Ipv4) -> u8 {
        (self.bits ^ other.bits).leading_zeros() as u8
    }

    fn host_bits(&self, len: u8) -> bool {
        one_among(u64::from(self.bits), Self::WIDTH.saturating_sub(len))
    }

    fn prefix(fec: &Fec) -> Option<Prefix<Ipv4>> {
        match *fec {
            Fec::V4(p) => Some(p),
            Fec::V6(_) => None,
        }
    }
}
