use crate::address::Address;
use crate::plan::Plan;
use frame::Refusal;
use std::alloc::Global;
use std::process::Abort;
use std::test::Fail;

// A FEC of the all-zero prefix: an address with only the last bit of the prefix set, and one with only the bit behind it.
fn edge(
    rt: &impl Abort,
    heap: Global,
    zero: Address,
    len: u32,
    last: Option<Address>,
    behind: Option<Address>,
) -> Result<(), Fail> {
    let mut plan = Plan::new(heap, 1, 0)?;
    if let Some(a) = behind {
        assert_eq!(rt; plan.add(a, len), Err(Refusal::HostBits));
    }
    assert_eq!(rt; plan.add(zero, len), Ok(0));
    assert_eq!(rt; plan.add(zero, len), Err(Refusal::FecTaken));
    if let Some(a) = last {
        assert_eq!(rt; plan.find(a), None);
    }
    if let Some(a) = behind {
        assert_eq!(rt; plan.find(a), Some(0));
    }
    assert_eq!(rt; plan.find(zero), Some(0));
    Ok(())
}

#[test]
fn edges_of_ipv4(rt: HostRuntime) -> Result<(), Fail> {
    let zero = Address::ipv4(0);
    let rows = [
        (0, None, Some(Address::ipv4(0x8000_0000))),
        (
            1,
            Some(Address::ipv4(0x8000_0000)),
            Some(Address::ipv4(0x4000_0000)),
        ),
        (31, Some(Address::ipv4(2)), Some(Address::ipv4(1))),
        (32, Some(Address::ipv4(1)), None),
    ];
    for (len, last, behind) in rows {
        edge(&rt, rt.alloc(), zero, len, last, behind)?;
    }
    Ok(())
}

#[test]
fn edges_of_ipv6(rt: HostRuntime) -> Result<(), Fail> {
    let zero = Address::ipv6(0, 0);
    let top = 0x8000_0000_0000_0000;
    let rows = [
        (0, None, Some(Address::ipv6(top, 0))),
        (63, Some(Address::ipv6(2, 0)), Some(Address::ipv6(1, 0))),
        (64, Some(Address::ipv6(1, 0)), Some(Address::ipv6(0, top))),
        (
            65,
            Some(Address::ipv6(0, top)),
            Some(Address::ipv6(0, top / 2)),
        ),
        (127, Some(Address::ipv6(0, 2)), Some(Address::ipv6(0, 1))),
        (128, Some(Address::ipv6(0, 1)), None),
    ];
    for (len, last, behind) in rows {
        edge(&rt, rt.alloc(), zero, len, last, behind)?;
    }
    Ok(())
}

// Nested prefixes, and the same bits in both kinds.
#[test]
fn nests(rt: HostRuntime) -> Result<(), Fail> {
    let mut plan = Plan::new(rt.alloc(), 16, 1)?;
    let adds = [
        (Address::ipv4(0), 0, Ok(0)),
        (Address::ipv4(0x0a01_0000), 16, Ok(1)),
        (Address::ipv4(0x0a00_0000), 8, Ok(2)),
        (Address::ipv6(0x0a00_0000_0000_0000, 0), 8, Ok(3)),
        (Address::ipv4(0x0a00_0000), 8, Err(Refusal::FecTaken)),
        (Address::ipv4(0), 33, Err(Refusal::OutOfRange)),
        (Address::ipv6(0, 1), 129, Err(Refusal::OutOfRange)),
    ];
    for (address, len, answer) in adds {
        assert_eq!(rt; plan.add(address, len), answer);
    }
    assert_eq!(rt; plan.len(), 4);
    let finds = [
        (Address::ipv4(0x0a01_0203), Some(1)),
        (Address::ipv4(0x0a02_0000), Some(2)),
        (Address::ipv4(0x0b00_0000), Some(0)),
        (Address::ipv6(0x0a01_0203_0000_0000, 0), Some(3)),
        (Address::ipv6(0, 0), None),
    ];
    for (address, answer) in finds {
        assert_eq!(rt; plan.find(address), answer);
    }
    Ok(())
}

#[test]
fn fills(rt: HostRuntime) -> Result<(), Fail> {
    let mut plan = Plan::new(rt.alloc(), 1, 0)?;
    for n in 0..32 {
        assert_eq!(rt; plan.add(Address::ipv4(n), 32), Ok(n as usize));
    }
    assert_eq!(rt; plan.add(Address::ipv4(32), 32), Err(Refusal::TableFull));
    assert_eq!(rt; plan.add(Address::ipv4(0), 32), Err(Refusal::TableFull));
    assert_eq!(rt; plan.add(Address::ipv4(1), 31), Err(Refusal::HostBits));
    Ok(())
}

#[test]
fn void_plans(rt: HostRuntime) -> Result<(), Fail> {
    for (routers, policy) in [(0, 0), (17, 0), (1, 2)] {
        let mut plan = Plan::new(rt.alloc(), routers, policy)?;
        assert_eq!(rt; plan.fault(), Some(Refusal::OutOfRange));
        assert_eq!(rt; plan.add(Address::ipv4(0), 0), Err(Refusal::OutOfRange));
        assert_eq!(rt; plan.routers(), 0);
    }
    let plan = Plan::new(rt.alloc(), 16, 1)?;
    assert_eq!(rt; plan.fault(), None);
    Ok(())
}
