// The network as a model: its tables, calls and histories, and what no history can break. Specs and proofs, and the words
// that they share with the program.
#![tactic(auto)]

ghost use Rattle.model.specs.Promises.{NetworkSafe};

pub mod cause;
pub mod fate;
pub mod met;

pub use crate::cause::Cause;
pub use crate::fate::Fate;
pub use crate::met::Met;

// Every run of every network is safe, whatever its addresses are.
fn network_is_safe<Address>() -> u8
    ensures { NetworkSafe Address }
{
    0
}
