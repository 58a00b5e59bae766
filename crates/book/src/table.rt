// The table of the records: what is at which place.
ghost use Rattle.std.specs.Prelude.{◌≡◌, ◌<◌, [], ◌∷◌, ◌++◌, length, vec_len, vec_capacity};
ghost use Rattle.book.specs.Records.{end_of};
ghost use Rattle.book.specs.Tables.{Found, Ended};

use crate::end::End;
use crate::packet::Record;

// A struct inside the book, as the project's rules name it.
#[derive(Drop)]
pub(crate) struct Table<A> {
    pub(crate) records: Vec<Record<A>>,
}

impl<A: Copy> Table<A> {
    pub(crate) fn len(&self) -> usize
        ensures { result ≡ length self.now.records.items }
    {
        self.records.len()
    }

    // The record at a place, if there is one.
    pub(crate) fn get(&self, place: usize) -> Option<Record<A>>
        ensures { Found self.now.records.items place result }
    {
        self.records.get(place).copied()
    }

    // One record more at the end, where there is room for it.
    pub(crate) fn push(&mut self, packet: Record<A>)
        requires { vec_len self.old.records < vec_capacity self.old.records }
        ensures items { self.new.records.items ≡ self.old.records.items ++ packet ∷ [] }
        ensures room { vec_capacity self.new.records ≡ vec_capacity self.old.records }
    {
        self.records.push_reserved(packet);
    }

    // Writes a packet's end into its record; all else stays.
    pub(crate) fn end(&mut self, end: End)
        requires { end.packet < length self.old.records.items }
        ensures ended { Ended self.old.records.items end.packet (end_of end) self.new.records.items }
        ensures room { vec_capacity self.new.records ≡ vec_capacity self.old.records }
    {
        self.records[end.packet].finish(end);
    }
}
