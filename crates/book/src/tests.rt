// A book is filled, and a packet ends.
use crate::book::Book;
use crate::end::End;
use crate::packet::Record;
use model::{Cause, Fate};
use std::test::Fail;

// Takes a packet in, if there is room.
fn enter(book: &mut Book<u32>, number: usize) {
    if !book.is_full() {
        book.append(Record {
            number,
            ingress: 0,
            address: 7,
            ttl: 64,
            fec: None,
            fate: Fate::Waiting,
            router: None,
            cause: None,
        });
    }
}

#[test]
fn a_full_book(rt: HostRuntime) -> Result<(), Fail> {
    let mut book = Book::new(rt.alloc())?;
    for number in 0..600 {
        enter(&mut book, number);
    }
    assert_eq!(rt; book.len(), 512);
    book.end(End {
        packet: 511,
        fate: Fate::Dropped,
        router: 3,
        cause: Some(Cause::NoRoom),
    });
    assert!(rt; book.is_waiting(510) && !book.is_waiting(511) && !book.is_waiting(512));
    assert_eq!(rt; book.count(Fate::Dropped), 1);
    assert_eq!(rt; book.count(Fate::Waiting), 511);
    Ok(())
}
