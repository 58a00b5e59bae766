// A tunnel: a plant over any plant below it, with two more lines that lead along a path of lines below and back.
#![tactic(auto)]

mod laid;
mod making;
mod open;
mod path;
mod polling;
mod questions;
mod rules;
mod sending;
mod tunnel;

pub use crate::tunnel::Tunnel;
