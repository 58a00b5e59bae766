// FECs for a table: made of an address and a length, and looked for among those it has.
ghost use Rattle.std.specs.Prelude.{◌≡◌};
ghost use Rattle.lookup.specs.Tables.{PrefixMade, FecMade, clash, taken};

use crate::address::Address;
use crate::fec::{Fec, Prefix};
use crate::kind::AddressKind;
use frame::Refusal;

// A prefix of so many bits of an address; refused if the length is over the width, or a one bit is behind it.
fn prefix_of<T: AddressKind>(start: T, len: u32) -> Result<Prefix<T>, Refusal>
    ensures { PrefixMade T.WIDTH (T.value start) start len result }
{
    if len > u32::from(T::bits()) {
        return Err(Refusal::OutOfRange);
    }
    let len = len as u8;
    if start.host_bits(len) {
        return Err(Refusal::HostBits);
    }
    Ok(Prefix { start, len })
}

pub(crate) fn fec_of(address: Address, len: u32) -> Result<Fec, Refusal>
    ensures { FecMade address len result }
{
    // Two arms of one text, as each calls the function at its own type.
    match address {
        Address::V4(a) => prefix_of(a, len).map(Fec::V4),
        Address::V6(a) => prefix_of(a, len).map(Fec::V6),
    }
}

// Whether `fec` has the kind and length of `other`, which covers its prefix.
fn is_clash(other: &Fec, fec: &Fec) -> bool
    ensures { result ≡ clash other.now fec.now }
{
    other.len() == fec.len() && other.covers(&fec.start())
}

pub(crate) fn is_taken(table: &[Fec], fec: &Fec) -> bool
    ensures { result ≡ taken table.now fec.now }
{
    table.iter().any(|other| is_clash(other, fec))
}
