// A FEC: a kind, a prefix and its length in bits.
ghost use Rattle.std.specs.Prelude.{◌≡◌};
ghost use Rattle.lookup.specs.Fecs.{length_of, start_of};

use crate::address::{Address, Ipv4, Ipv6};

#[derive(Clone, Copy)]
pub struct Prefix<T> {
    pub start: T,
    pub len: u8,
}

// An enum and no type parameter, since one table holds FECs of both kinds: so each question of a FEC has an arm for each kind.
#[derive(Clone, Copy)]
pub enum Fec {
    V4(Prefix<Ipv4>),
    V6(Prefix<Ipv6>),
}

impl Fec {
    pub fn len(&self) -> u8
        ensures { result ≡ length_of self.now }
    {
        match *self {
            Fec::V4(p) => p.len,
            Fec::V6(p) => p.len,
        }
    }

    pub fn start(&self) -> Address
        ensures { result ≡ start_of self.now }
    {
        match *self {
            Fec::V4(p) => Address::V4(p.start),
            Fec::V6(p) => Address::V6(p.start),
        }
    }
}
