// Questions of a network: why a packet ended where it did. Each hands on to the table or the book that knows, in one line, and
// takes any numbers.
ghost use Rattle.std.specs.Prelude.{◌≡◌};
ghost use Rattle.model.specs.Packets.{at};
ghost use Rattle.model.specs.Promises.{count};
ghost use Rattle.labels.specs.Pools.{status_of};
ghost use Rattle.labels.specs.Numbers.{stage_number};
ghost use Rattle.tables.specs.Reading.{tables_of};
ghost use Rattle.book.specs.Records.{found_of};
ghost use Rattle.book.specs.Books.{book_of};

use crate::network::Network;
use book::Record;
use grid::Label;
use labels::{Stage, Status};
use lookup::Address;
use model::Fate;
use plant::Plant;

impl<P: Plant> Network<P> {
    // Whether the network stands still.
    pub fn is_still(&self) -> bool
        ensures { result ≡ self.now.routers.still }
    {
        self.routers.still
    }

    // The record of a packet, if there is such a packet.
    pub fn packet_record(&self, packet: usize) -> Option<Record<Address>>
        ensures { found_of result ≡ at (book_of self.now.routers.book) packet }
    {
        self.routers.book.get(packet)
    }

    // How many packets have a fate.
    pub fn count(&self, fate: Fate) -> usize
        ensures { result ≡ count fate (book_of self.now.routers.book) }
    {
        self.routers.book.count(fate)
    }

    // Whether a router owns a FEC.
    pub fn owns(&self, router: usize, fec: u32) -> bool
        ensures { result ≡ (tables_of self.now.routers.tables).owner router fec }
    {
        self.routers.tables.owns(router, fec)
    }

    // The line of a router's next hop for a FEC.
    pub fn next_hop(&self, router: usize, fec: u32) -> Option<usize>
        ensures { result ≡ (tables_of self.now.routers.tables).hop router fec }
    {
        self.routers.tables.next_hop(router, fec)
    }

    // The label for a FEC that was learned over a line.
    pub fn remote(&self, line: usize, fec: u32) -> Option<usize>
        ensures { result ≡ (tables_of self.now.routers.tables).remote line fec }
    {
        self.routers.tables.remote(line, fec).map(Label::number)
    }

    // What a router has a label for.
    pub fn status(&self, router: usize, label: usize) -> Status
        ensures { status_of result ≡ (tables_of self.now.routers.tables).status router label }
    {
        self.routers.tables.status(router, label)
    }

    // How far a label of the router where a line ends has been told at its other end.
    pub fn stage(&self, line: usize, label: usize) -> Stage
        ensures { stage_number result ≡ (tables_of self.now.routers.tables).stage line label }
    {
        self.routers.tables.stage(line, label)
    }

    // The FEC of the release of a label that is due on a line.
    pub fn due(&self, line: usize, label: usize) -> Option<u32>
        ensures { result ≡ (tables_of self.now.routers.tables).due line label }
    {
        self.routers.tables.due(line, label)
    }
}
