// The book of packets: a record for each packet taken in, by its number, with its end once it has come.
#![tactic(auto)]

pub mod book;
pub mod end;
pub mod packet;
mod reading;
mod table;
mod writing;

pub use crate::book::{Book, MOST_PACKETS};
pub use crate::end::End;
pub use crate::packet::Record;

#[cfg(test)]
mod tests;
