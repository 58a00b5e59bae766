// The jobs that the program carries out.
use crate::carrying::Carrier;
use frame::{Entry, Frame, Kind, Stack};
use ring::{Link, Ring, room_for};
use tunnel::Tunnel;

// A packet under one label. Of plain numbers, as a message here: the network's own frames take a Label, and labels that a plant
// keeps are sent here too.
fn data(label: u32, packet: u32) -> Frame {
    let mut stack = Stack::new();
    let _ = stack.push(Entry {
        label,
        tc: 0,
        ttl: 64,
    });
    Frame {
        kind: Kind::Data,
        stack,
        a: packet,
        b: 0,
    }
}

// A message of a label for a FEC.
fn message(kind: Kind, fec: u32, label: u32) -> Frame {
    Frame {
        kind,
        stack: Stack::new(),
        a: fec,
        b: label,
    }
}

// Frames of every kind on several lines, until lines are full; then everything is polled out.
pub fn over_a_ring(rt: &(impl AllocGlobal + Print)) -> anyhow::Result<()> {
    println!(rt; "a ring plant of three links")?;
    let links = [
        Link { a: 0, b: 1, cap: 4 },
        Link { a: 1, b: 2, cap: 2 },
        Link { a: 2, b: 0, cap: 1 },
    ];
    let mut carrier = Carrier::new(Ring::new(&links, room_for(rt.alloc(), &links)?));
    carrier.describe(rt)?;
    for packet in 0..5 {
        carrier.send(rt, 0, data(16 + packet, packet))?;
    }
    for (line, frame) in [
        (3, message(Kind::Mapping, 7, 16)),
        (3, message(Kind::Withdraw, 7, 16)),
        (3, message(Kind::Mapping, 8, 17)),
        (4, message(Kind::Release, 7, 16)),
        (6, Frame::default()),
    ] {
        carrier.send(rt, line, frame)?;
    }
    carrier.drain(rt)?;
    println!(rt; "{}", carrier.tally())?;
    Ok(())
}

// Frames forth and back through a tunnel, and what it refuses.
pub fn over_a_tunnel(rt: &(impl AllocGlobal + Print)) -> anyhow::Result<()> {
    println!(rt; "a tunnel along lines 0 and 2, window 2, over two links")?;
    let links = [Link { a: 0, b: 1, cap: 4 }, Link { a: 1, b: 2, cap: 4 }];
    let ring = Ring::new(&links, room_for(rt.alloc(), &links)?);
    let mut carrier = Carrier::new(Tunnel::new(ring, &[0, 2], 2));
    carrier.describe(rt)?;
    carrier.send(rt, 4, data(16, 1))?;
    for port in [0, 2] {
        let _ = carrier.poll(rt, port)?;
    }
    for (line, frame) in [
        (5, message(Kind::Mapping, 7, 16)),
        (5, message(Kind::Release, 7, 17)),
        (5, data(16, 2)),
        (0, data(1_048_574, 3)),
    ] {
        carrier.send(rt, line, frame)?;
    }
    carrier.drain(rt)?;
    println!(rt; "{}", carrier.tally())?;
    Ok(())
}

// Which windows the same path takes.
pub fn windows(rt: &(impl AllocGlobal + Print)) -> anyhow::Result<()> {
    let links = [Link { a: 0, b: 1, cap: 4 }, Link { a: 1, b: 2, cap: 4 }];
    for window in 3..5 {
        let ring = Ring::new(&links, room_for(rt.alloc(), &links)?);
        match Tunnel::new(ring, &[0, 2], window).fault() {
            Some(refusal) => println!(rt; "window {window}: {refusal}")?,
            None => println!(rt; "window {window}: taken")?,
        }
    }
    Ok(())
}

// A tunnel over a tunnel: its path runs along the lower tunnel's line 6, and then line 4.
pub fn over_two_tunnels(rt: &(impl AllocGlobal + Print)) -> anyhow::Result<()> {
    println!(rt;
        "a tunnel along lines 6 and 4, window 1, over a tunnel along lines 0 and 2, window 2, over three links"
    )?;
    let links = [
        Link { a: 0, b: 1, cap: 4 },
        Link { a: 1, b: 2, cap: 4 },
        Link { a: 2, b: 3, cap: 4 },
    ];
    let lower = Tunnel::new(Ring::new(&links, room_for(rt.alloc(), &links)?), &[0, 2], 2);
    let mut carrier = Carrier::new(Tunnel::new(lower, &[6, 4], 1));
    carrier.describe(rt)?;
    for (line, frame) in [
        (8, data(16, 1)),
        (8, data(16, 2)),
        (6, data(17, 3)),
        (9, message(Kind::Withdraw, 7, 16)),
    ] {
        carrier.send(rt, line, frame)?;
    }
    carrier.drain(rt)?;
    println!(rt; "{}", carrier.tally())?;
    Ok(())
}
