// IPv6: 128 bits in two words.
ghost use Rattle.std.specs.Prelude.{◌≡◌, ℕ};
ghost use Rattle.std.proofs.Common.{ap₂, rules};
ghost use Rattle.lookup.specs.Agreement.{agree6, value6, carried};
ghost use Rattle.lookup.specs.Fecs.{held6};
ghost use Rattle.lookup.specs.Agree.{agree_equal, agree_within, agree_apart, carried_full, symmetric6, between6};
ghost use Rattle.lookup.specs.declared.address.Ipv6.{Ipv6};

use crate::address::Ipv6;
use crate::fec::{Fec, Prefix};
use crate::kind::{AddressKind, one_among};

impl AddressKind for Ipv6 {
    ghost WIDTH = { 128 };

    ghost value = { value6 };

    ghost agrees = { agree6 };

    ghost held = { held6 };

    const WIDTH: u8 = 128;

    ghost within = { Prim.search rules };

    ghost equal = { λ a. ap₂ carried (agree_equal 64 a.high) (agree_equal 64 a.low) };

    ghost apart = { λ a b e.
        let f = carried_full _ _ (agree_within 64 a.high b.high) (agree_within 64 a.low b.low) e in
        let of : ℕ → ℕ → Ipv6 = λ x y. record { high = x; low = y } in
        ap₂ of (agree_apart 63 a.high b.high f.0) (agree_apart 63 a.low b.low f.1) };

    ghost symmetric = { symmetric6 };

    ghost between = { between6 };

    fn agree(&self, other: &Ipv6) -> u8 {
        let first = (self.high ^ other.high).leading_zeros() as u8;
        if first < 64 {
            return first;
        }
        64 + (self.low ^ other.low).leading_zeros() as u8
    }

    #[tactic(auto, using(crate::proofs::Halves::by_halves))]
    fn host_bits(&self, len: u8) -> bool {
        if len < 64 {
            self.low != 0 || one_among(self.high, 64 - len)
        } else {
            one_among(self.low, Self::WIDTH.saturating_sub(len))
        }
    }

    fn prefix(fec: &Fec) -> Option<Prefix<Ipv6>> {
        match *fec {
            Fec::V4(_) => None,
            Fec::V6(p) => Some(p),
        }
    }
}
