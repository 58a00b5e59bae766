// Questions of the book.
ghost use Rattle.std.specs.Prelude.{◌≡◌, length, nat_le};
ghost use Rattle.model.specs.Packets.{at, is_waiting};
ghost use Rattle.model.specs.Promises.{count};
ghost use Rattle.book.specs.Records.{found_of};
ghost use Rattle.book.specs.Books.{book_of};

use crate::book::{Book, MOST_PACKETS};
use crate::packet::Record;
use model::Fate;

impl<A: Copy> Book<A> {
    // How many records there are: the number of the next packet.
    pub fn len(&self) -> usize
        ensures { result ≡ length (book_of self.now) }
    {
        self.table.len()
    }

    // Whether it has as many records as it may. It never has more.
    pub fn is_full(&self) -> bool
        ensures { result ≡ nat_le 512 (length (book_of self.now)) }
    {
        self.len() >= MOST_PACKETS
    }

    // The record of a packet, if there is such a packet.
    pub fn get(&self, packet: usize) -> Option<Record<A>>
        ensures { found_of result ≡ at (book_of self.now) packet }
    {
        self.table.get(packet)
    }

    // Whether there is such a packet, and it has not ended.
    pub fn is_waiting(&self, packet: usize) -> bool
        ensures { result ≡ is_waiting (at (book_of self.now) packet) }
    {
        self.get(packet)
            .is_some_and(|found| found.has(Fate::Waiting))
    }

    // How many packets have a fate.
    #[tactic(auto, using(crate::proofs::Counts::count_of_map))]
    pub fn count(&self, fate: Fate) -> usize
        ensures { result ≡ count fate (book_of self.now) }
    {
        self.table
            .records
            .iter()
            .filter(|packet| packet.has(fate))
            .count()
    }
}
