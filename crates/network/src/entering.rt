// A packet comes in.
ghost use Rattle.std.specs.Prelude.{◌≡◌, ◌<◌, true, [], ◌∷◌, ◌++◌, length};
ghost use Rattle.model.specs.Calls.{record_of};
ghost use Rattle.book.specs.Books.{book_of};
ghost use Rattle.tables.specs.Rows.{is_below};
ghost use Rattle.network.specs.Networks.{plan_of, Keeps};

use crate::hand::InHand;
use crate::routers::Routers;
use book::Record;
use lookup::Address;
use model::Fate;

impl Routers {
    // The FEC that longest match gives an address. A plain number, for `inject` hands it on twice: tried as a FecNumber, and the
    // borrow checker does not cover the second use of such an Option.
    pub(crate) fn fec_of(&self, address: Address) -> Option<usize>
        ensures found { result ≡ (plan_of self.now.plan).lookup address }
        ensures below { is_below 32 result ≡ true }
    {
        self.plan.find(address)
    }

    // Writes the record of a packet that comes in, and answers its number.
    pub(crate) fn enter(&mut self, hand: InHand, address: Address, fec: Option<usize>) -> usize
        requires room { length (book_of self.old.book) < 512 }
        requires fec { fec ≡ (plan_of self.old.plan).lookup address }
        ensures number { result ≡ length (book_of self.old.book) }
        ensures few { result < 512 }
        ensures book { book_of self.new.book ≡ book_of self.old.book ++ record_of (plan_of self.old.plan) result hand.router address hand.ttl ∷ [] }
        ensures tables { self.new.tables ≡ self.old.tables }
        ensures keeps { Keeps self.old self.new }
    {
        let number = self.book.len();
        let packet = Record {
            number,
            ingress: hand.router,
            address,
            ttl: hand.ttl,
            fec,
            fate: Fate::Waiting,
            router: None,
            cause: None,
        };
        self.book.append(packet);
        number
    }
}
