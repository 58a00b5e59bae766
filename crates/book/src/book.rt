// The book: a table of the records, with room for as many as there may be.
ghost use Rattle.std.specs.Prelude.{◌≤◌, vec_len, vec_capacity};

use crate::table::Table;

// How many packets a book may have.
pub const MOST_PACKETS: usize = 512;

#[derive(Drop)]
pub struct Book<A> {
    pub(crate) table: Table<A>,
    ghost few: { vec_len table.records ≤ 512 },
    ghost room: { 512 ≤ vec_capacity table.records },
}
