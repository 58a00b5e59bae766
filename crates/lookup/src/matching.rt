// Longest match: of the FECs of a table that cover an address, the place of the longest.
ghost use Rattle.std.specs.Prelude.{◌≡◌};
ghost use Rattle.lookup.specs.Fecs.{covers_by, covers};
ghost use Rattle.lookup.specs.Matches.{longest_of, Best, best_match, BestMatch};

use crate::address::Address;
use crate::fec::Fec;
use crate::kind::AddressKind;

// Whether a FEC covers an address: it is of the kind, and its prefix agrees in at least its length.
fn covered<T: AddressKind>(fec: &Fec, address: &T) -> bool
    ensures { result ≡ covers_by T.agrees T.held address.now fec.now }
{
    T::prefix(fec).is_some_and(|p| p.len <= p.start.agree(address))
}

// The place of the longest FEC of a table that covers an address, the first of them; None where none does.
#[tactic(auto, using(crate::proofs::Longest::best_so_far))]
pub fn longest_match<T: AddressKind>(table: &[Fec], address: &T) -> Option<usize>
    ensures named { result ≡ longest_of (covers_by T.agrees T.held address.now) table.now }
    ensures best { Best (covers_by T.agrees T.held address.now) table.now result }
{
    // a loop: `max_by_key` gives the last of equals, and the first is promised
    let mut best: Option<usize> = None;
    for (i, fec) in table.iter().enumerate() {
        if covered(fec, address) && best.is_none_or(|b| table[b].len() < fec.len()) {
            best = Some(i);
        }
    }
    best
}

// Longest match for an address of either kind.
pub fn find_longest(table: &[Fec], address: &Address) -> Option<usize>
    ensures named { result ≡ best_match table.now address.now }
    ensures best { BestMatch table.now address.now result }
{
    // Two arms of one text, as each calls the function at its own type.
    match address {
        Address::V4(a) => longest_match(table, a),
        Address::V6(a) => longest_match(table, a),
    }
}

impl Fec {
    pub fn covers(&self, address: &Address) -> bool
        ensures { result ≡ covers self.now address.now }
    {
        // Two arms of one text, as each calls the function at its own type.
        match address {
            Address::V4(a) => covered(self, a),
            Address::V6(a) => covered(self, a),
        }
    }
}
