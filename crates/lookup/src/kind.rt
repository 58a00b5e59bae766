// What a kind of address tells: its width, a one bit behind a length, and in how many leading bits two addresses agree.
ghost use Rattle.std.specs.Prelude.{◌≡◌, ℕ, ◌≤◌, min, Option};
ghost use Rattle.lookup.specs.declared.fec.Fec.{Fec};
ghost use Rattle.lookup.specs.declared.fec.Prefix.{Prefix};
ghost use Rattle.lookup.specs.Agreement.{one_behind};

use crate::fec::{Fec, Prefix};

pub trait AddressKind: Copy {
    // the number of bits of such an address
    ghost WIDTH: { ℕ };

    // its bits as one number
    ghost value: { Self → ℕ };

    // the number of leading bits in which two addresses agree
    ghost agrees: { Self → Self → ℕ };

    // the prefix that a FEC of this kind holds
    ghost held: { Fec → Option (Prefix Self) };

    const WIDTH: u8;

    fn bits() -> u8
        ensures { result ≡ WIDTH }
    {
        Self::WIDTH
    }

    fn agree(&self, other: &Self) -> u8
        ensures { result ≡ agrees self.now other.now };

    // Whether it has a one bit behind its first `len` bits.
    fn host_bits(&self, len: u8) -> bool
        ensures { result ≡ one_behind WIDTH (value self.now) len };

    // The prefix of a FEC of this kind. No TryFrom: that needs an error type which says nothing, and a bound at each user.
    fn prefix(fec: &Fec) -> Option<Prefix<Self>>
        ensures { result ≡ held fec.now };

    ghost within: { (a b : Self) → agrees a b ≤ WIDTH };

    ghost equal: { (a : Self) → agrees a a ≡ WIDTH };

    ghost apart: { (a b : Self) → agrees a b ≡ WIDTH → a ≡ b };

    ghost symmetric: { (a b : Self) → agrees a b ≡ agrees b a };

    ghost between: { (a b c : Self) → min (agrees a b) (agrees b c) ≤ agrees a c };
}

// Whether one of the last `k` bits of `x` is a one.
pub(crate) fn one_among(x: u64, k: u8) -> bool
    requires { k ≤ 64 }
    ensures { result ≡ one_behind k x 0 }
{
    u128::from(x) % (1u128 << k) != 0
}
