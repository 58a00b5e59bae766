// The ring plant: links between routers, each line a ring buffer in the caller's places, each port its line.
#![tactic(auto)]

mod buffer;
pub mod link;
mod make;
pub mod ring;
pub mod ring_plant;
pub mod room;
pub mod row;
mod survey;

pub use crate::link::Link;
pub use crate::ring::Ring;
pub use crate::room::room_for;

#[cfg(test)]
mod tests;
