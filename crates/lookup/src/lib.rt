// Address kinds, FECs, longest match over both kinds, and the plan that a network starts from.
#![tactic(auto)]

pub mod address;
pub mod fec;
pub mod ipv4;
pub mod ipv6;
pub mod kind;
pub mod matching;
pub mod plan;
pub mod planning;
pub mod table;

pub use crate::address::{Address, Ipv4, Ipv6};
pub use crate::fec::{Fec, Prefix};
pub use crate::kind::AddressKind;
pub use crate::matching::{find_longest, longest_match};
pub use crate::plan::{Plan, Policy};

#[cfg(test)]
mod tests;
