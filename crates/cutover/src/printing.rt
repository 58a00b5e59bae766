// Answers, records and totals in print.
use book::{MOST_PACKETS, Record};
use frame::Kind;
use lookup::Address;
use model::{Fate, Met};
use network::Network;
use plant::Plant;
use std::{fmt, io};

// What a call that is not refused comes to.
#[derive(Clone, Copy)]
pub enum Answer {
    Done,
    // the number of a packet that came in
    Packet(usize),
    // the kind of the message that was sent, if one was due
    Told(Option<Kind>),
    // what a poll met, and the line that it came out of: a pair, as the network's poll answers
    Met(Met, usize),
}

impl fmt::Display for Answer {
    fn fmt<W: fmt::Write>(&self, f: &mut fmt::Formatter<W>) -> fmt::Result {
        match *self {
            Answer::Done => write!(f, "done"),
            Answer::Packet(packet) => write!(f, "packet {packet}"),
            Answer::Told(Some(kind)) => write!(f, "{kind}"),
            Answer::Told(None) => write!(f, "nothing due"),
            Answer::Met(Met::Idle, _) => write!(f, "idle"),
            Answer::Met(Met::Moved, _) => write!(f, "moved"),
            Answer::Met(Met::Message, line) => write!(f, "message on line {line}"),
            Answer::Met(Met::Packet, line) => write!(f, "packet on line {line}"),
            Answer::Met(Met::Stray, line) => write!(f, "stray on line {line}"),
        }
    }
}

// A record in print: how a packet came in and how it ended.
#[derive(Clone, Copy)]
struct Shown(Record<Address>);

impl fmt::Display for Shown {
    fn fmt<W: fmt::Write>(&self, f: &mut fmt::Formatter<W>) -> fmt::Result {
        let found = self.0;
        write!(
            f,
            "packet {}: in at router {}, ",
            found.number, found.ingress
        )?;
        match found.fec {
            Some(fec) => write!(f, "FEC {fec}, ")?,
            None => write!(f, "no FEC, ")?,
        }
        let router = found.router.unwrap_or(0);
        match (found.fate, found.cause) {
            (Fate::Waiting, _) => write!(f, "waiting"),
            (Fate::Delivered, _) => write!(f, "delivered at router {router}"),
            (Fate::Dropped, Some(cause)) => write!(
                f,
                "dropped at router {router} with cause {}",
                cause.number()
            ),
            (Fate::Dropped, None) => write!(f, "dropped at router {router}"),
        }
    }
}

// Prints all records, and the totals.
pub fn print_book<P: Plant>(rt: &impl Print, net: &Network<P>) -> io::Result<()> {
    for found in (0..MOST_PACKETS).filter_map(|packet| net.packet_record(packet)) {
        println!(rt; "{}", Shown(found))?;
    }
    let delivered = net.count(Fate::Delivered);
    let dropped = net.count(Fate::Dropped);
    let waiting = net.count(Fate::Waiting);
    println!(rt; "delivered {delivered}, dropped {dropped}, waiting {waiting}")
}
