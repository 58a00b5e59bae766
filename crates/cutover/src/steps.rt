// The steps of a rehearsal, each a call of the network, and doing them.
use crate::printing::Answer;
use frame::Refusal;
use lookup::Address;
use network::Network;
use plant::Plant;
use std::{fmt, io};

// Data and no closures, since a step is printed before its call is made.
#[derive(Clone, Copy)]
pub enum Step {
    // a router, a FEC and a mark
    Own(usize, u32, usize),
    // a router, a FEC and the line of the next hop
    Route(usize, u32, Option<usize>),
    // a router, the bits of an IPv4 address and a TTL
    Inject(usize, u32, usize),
    // a line
    Tell(usize),
    // a port
    Poll(usize),
}

impl fmt::Display for Step {
    fn fmt<W: fmt::Write>(&self, f: &mut fmt::Formatter<W>) -> fmt::Result {
        match *self {
            Step::Own(router, fec, mark) => write!(
                f,
                "own: router {router}, FEC {fec}, mark {mark}"
            ),
            Step::Route(router, fec, Some(line)) => write!(
                f,
                "route: router {router}, FEC {fec}, line {line}"
            ),
            Step::Route(router, fec, None) => write!(
                f,
                "route: router {router}, FEC {fec}, no line"
            ),
            Step::Inject(router, bits, ttl) => write!(
                f,
                "inject: router {router}, address {bits:08x}, TTL {ttl}"
            ),
            Step::Tell(line) => write!(f, "tell: line {line}"),
            Step::Poll(port) => write!(f, "poll: port {port}"),
        }
    }
}

// Makes the call of a step.
fn call<P: Plant>(net: &mut Network<P>, step: Step) -> Result<Answer, Refusal> {
    match step {
        Step::Own(router, fec, mark) => net.own(router, fec, mark).map(|()| Answer::Done),
        Step::Route(router, fec, line) => net.route(router, fec, line).map(|()| Answer::Done),
        Step::Inject(router, bits, ttl) => net
            .inject(router, Address::ipv4(bits), ttl)
            .map(Answer::Packet),
        Step::Tell(line) => net.tell(line).map(Answer::Told),
        Step::Poll(port) => net.poll(port).map(|(met, line)| Answer::Met(met, line)),
    }
}

// Does one step, and prints it with what it came to.
fn take<P: Plant>(rt: &impl Print, net: &mut Network<P>, step: Step) -> io::Result<()> {
    print!(rt; "{step}: ")?;
    match call(net, step) {
        Ok(answer) => println!(rt; "{answer}"),
        Err(refusal) => println!(rt; "{refusal}"),
    }
}

// Does the steps in their order.
pub fn take_all<P: Plant>(rt: &impl Print, net: &mut Network<P>, steps: &[Step]) -> io::Result<()> {
    for step in steps {
        take(rt, net, *step)?;
    }
    Ok(())
}
