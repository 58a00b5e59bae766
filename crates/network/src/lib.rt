// The network: a plan and a plant, started, and the five calls.
#![tactic(auto)]

mod arriving;
pub mod asking;
pub mod calls;
mod dealing;
mod entering;
mod frames;
mod hand;
pub mod network;
mod refusals;
pub mod routers;
mod seeing;
pub mod starting;
mod steering;
mod verdict;

pub use crate::network::Network;
pub use crate::routers::Routers;
pub use crate::starting::start;
