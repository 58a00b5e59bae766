// The frames that a network sends.
ghost use Rattle.std.specs.Prelude.{◌≡◌, ◌<◌};
ghost use Rattle.frame.specs.Frames.{frame_value};
ghost use Rattle.model.specs.Messages.{message as message_value};
ghost use Rattle.model.specs.Packets.{data_frame};

use frame::{Entry, Frame, Kind, Stack};
use grid::Label;
use tables::Message;

// The frame of a message. A function and no From: neither type is of this crate.
pub(crate) fn message_frame(message: Message) -> Frame
    requires { message.label < 80 }
    ensures { frame_value result ≡ message_value message.kind message.fec message.label }
{
    Frame {
        kind: message.kind,
        stack: Stack::new(),
        a: message.fec,
        b: message.label as u32,
    }
}

// The frame of a packet.
pub(crate) fn data_frame(packet: u32, label: Label, ttl: u8) -> Frame
    ensures { frame_value result ≡ data_frame packet label ttl }
{
    let mut stack = Stack::new();
    let _ = stack.push(Entry {
        label: label.number() as u32,
        tc: 0,
        ttl,
    });
    Frame {
        kind: Kind::Data,
        stack,
        a: packet,
        b: 0,
    }
}
