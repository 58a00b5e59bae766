// The book is made and written. It takes memory when it is made, and none after.
ghost use Rattle.std.specs.Prelude.{◌≡◌, ◌<◌, [], ◌∷◌, ◌++◌, length, IfOk, Some};
ghost use Rattle.model.specs.Packets.{settle};
ghost use Rattle.book.specs.Records.{record_of, end_of};
ghost use Rattle.book.specs.Books.{book_of};

use crate::book::{Book, MOST_PACKETS};
use crate::end::End;
use crate::packet::Record;
use crate::table::Table;
use std::alloc::{AllocError, Global};

impl<A: Copy> Book<A> {
    pub fn new(heap: Global) -> Result<Book<A>, AllocError>
        ensures { IfOk result (λ b. book_of b ≡ []) }
    {
        let records = Vec::with_capacity(heap, MOST_PACKETS)?;
        Ok(Book {
            table: Table { records },
        })
    }

    // One record more, in a book that has room.
    pub fn append(&mut self, packet: Record<A>)
        requires { length (book_of self.old) < 512 }
        ensures { book_of self.new ≡ book_of self.old ++ record_of packet ∷ [] }
    {
        self.table.push(packet);
    }

    // Writes the end of a packet into its record; a number that no packet has changes nothing.
    #[tactic(auto, using(crate::proofs::Places::revise_ended, crate::proofs::Places::end_beyond))]
    pub fn end(&mut self, end: End)
        ensures { book_of self.new ≡ settle (Some (end_of end)) (book_of self.old) }
    {
        if end.packet < self.table.len() {
            self.table.end(end);
        }
    }
}
