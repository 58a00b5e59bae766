// Rows made of what a network tells.
ghost use Rattle.std.specs.Prelude.{◌≡◌};
ghost use Rattle.book.specs.Records.{record_of};
ghost use Rattle.report.specs.Rows.{packet_row};

use crate::row::Row;
use book::Record;

// The row of a packet, from its record.
impl<A: Copy> From<&Record<A>> for Row {
    ghost from_gives = { λ packet row. row ≡ packet_row (record_of packet.now) };

    fn from(packet: &Record<A>) -> Row {
        Row::Packet {
            number: packet.number,
            ingress: packet.ingress,
            fec: packet.fec,
            fate: packet.fate,
            router: packet.router,
            cause: packet.cause,
        }
    }
}
