// Label stack entries, stacks, frames, and the refusals that every layer answers with.
#![tactic(auto)]

pub mod entry;
pub mod frame;
pub mod kind;
pub mod refusal;
pub mod stack;
pub mod stacking;

pub use crate::entry::Entry;
pub use crate::frame::Frame;
pub use crate::kind::Kind;
pub use crate::refusal::Refusal;
pub use crate::stack::Stack;
pub use crate::stacking::label_allowed;

#[cfg(test)]
mod tests;
