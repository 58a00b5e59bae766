// The rehearsals.
use crate::printing::print_book;
use crate::steps::{Step, take_all};
use lookup::{Address, Plan};
use network::start;
use plant::Plant;
use ring::{Link, Ring, room_for};
use tunnel::Tunnel;

// A plan of so many routers, policy ordered, with the one FEC 10.0.0.0/8.
fn plan_of(rt: &impl AllocGlobal, routers: u32) -> anyhow::Result<Plan> {
    let mut plan = Plan::new(rt.alloc(), routers, 0)?;
    let _ = plan.add(Address::ipv4(0x0a00_0000), 8)?;
    Ok(plan)
}

// Takes the steps over a plant, under a plan of so many routers, and prints what became of the packets.
fn rehearse<P: Plant + Drop>(
    rt: &(impl AllocGlobal + Print),
    routers: u32,
    plant: P,
    steps: &[Step],
) -> anyhow::Result<()> {
    let mut net = start(rt.alloc(), plan_of(rt, routers)?, plant)?;
    take_all(rt, &mut net, steps)?;
    print_book(rt, &net)?;
    Ok(())
}

// The way from router 0 to router 2 is cut over from router 1 to router 3, while packets are under way.
pub fn over_a_ring(rt: &(impl AllocGlobal + Print)) -> anyhow::Result<()> {
    println!(rt; "over a ring plant: router 0 to router 2, by router 1 and then by router 3")?;
    let links = [
        Link { a: 0, b: 1, cap: 2 },
        Link { a: 1, b: 2, cap: 2 },
        Link { a: 0, b: 3, cap: 2 },
        Link { a: 3, b: 2, cap: 2 },
    ];
    let ring = Ring::new(&links, room_for(rt.alloc(), &links)?);
    rehearse(rt, 4, ring, &CUTOVER)
}

// The steps of that rehearsal.
const CUTOVER: [Step; 31] = [
    // Labels are told from router 2 back to router 0; a packet is delivered, others are dropped.
    Step::Route(1, 0, Some(2)),
    Step::Route(0, 0, Some(0)),
    Step::Route(3, 0, Some(6)),
    Step::Own(2, 0, 1),
    Step::Tell(3),
    Step::Poll(3),
    Step::Tell(1),
    Step::Poll(1),
    Step::Inject(0, 0x0a01_0203, 64),
    Step::Poll(0),
    Step::Poll(2),
    Step::Inject(0, 0x0a01_0203, 1),
    Step::Inject(3, 0x0a01_0203, 64),
    Step::Inject(0, 0x0b00_0000, 64),
    // The cutover, with a packet on the old way and one on the new.
    Step::Tell(7),
    Step::Poll(7),
    Step::Inject(0, 0x0a01_0203, 64),
    Step::Tell(5),
    Step::Poll(5),
    Step::Route(0, 0, Some(4)),
    Step::Inject(0, 0x0a01_0203, 64),
    Step::Route(1, 0, None),
    // The old label is withdrawn and released; a line fills up.
    Step::Poll(0),
    Step::Tell(1),
    Step::Poll(1),
    Step::Tell(0),
    Step::Poll(0),
    Step::Poll(4),
    Step::Inject(3, 0x0a01_0203, 64),
    Step::Inject(3, 0x0a01_0203, 64),
    Step::Tell(9),
];

// The same FEC through a tunnel along lines 0 and 2.
pub fn over_a_tunnel(rt: &(impl AllocGlobal + Print)) -> anyhow::Result<()> {
    println!(rt; "over a tunnel from router 0 to router 2")?;
    let links = [Link { a: 0, b: 1, cap: 4 }, Link { a: 1, b: 2, cap: 4 }];
    let plant = Tunnel::new(Ring::new(&links, room_for(rt.alloc(), &links)?), &[0, 2], 2);
    let steps = [
        Step::Route(0, 0, Some(4)),
        Step::Own(2, 0, 1),
        Step::Tell(5),
        Step::Poll(3),
        Step::Poll(1),
        Step::Inject(0, 0x0a01_0203, 64),
        Step::Poll(0),
        Step::Poll(2),
        Step::Inject(0, 0x0a01_0203, 64),
    ];
    rehearse(rt, 3, plant, &steps)
}

// And through a tunnel over that tunnel.
pub fn over_two_tunnels(rt: &(impl AllocGlobal + Print)) -> anyhow::Result<()> {
    println!(rt;
        "over a tunnel from router 0 to router 3, over a tunnel from router 0 to router 2"
    )?;
    let links = [
        Link { a: 0, b: 1, cap: 4 },
        Link { a: 1, b: 2, cap: 4 },
        Link { a: 2, b: 3, cap: 4 },
    ];
    let lower = Tunnel::new(Ring::new(&links, room_for(rt.alloc(), &links)?), &[0, 2], 2);
    let plant = Tunnel::new(lower, &[6, 4], 1);
    let steps = [
        Step::Route(0, 0, Some(8)),
        Step::Own(3, 0, 1),
        Step::Tell(9),
        Step::Poll(5),
        Step::Poll(3),
        Step::Poll(1),
        Step::Inject(0, 0x0a01_0203, 64),
        Step::Poll(0),
        Step::Poll(2),
        Step::Poll(4),
    ];
    rehearse(rt, 4, plant, &steps)
}
