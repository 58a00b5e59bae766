// The edge of each refusal, and the order in which frames come out.
use crate::link::Link;
use crate::ring::Ring;
use crate::room::room_for;
use frame::{Frame, Kind, Refusal, Stack};
use plant::{Outcome, Plant};
use std::alloc::{AllocError, Global};
use std::test::Fail;

fn release(a: u32) -> Frame {
    Frame {
        kind: Kind::Release,
        stack: Stack::new(),
        a,
        b: 16,
    }
}

// The number that a plant of so many equal links in so many places tells, 0 if none.
fn told(heap: Global, count: usize, link: Link, places: usize) -> Result<u8, AllocError> {
    let mut links = Vec::new(heap);
    links.resize(count, link)?;
    let mut frames = Vec::new(heap);
    frames.resize(places, release(0))?;
    let plant = Ring::new(links.as_slice(), frames);
    Ok(plant.fault().map_or(0, Refusal::number))
}

#[test]
fn making(rt: HostRuntime) -> Result<(), Fail> {
    let heap = rt.alloc();
    let good = Link {
        a: 0,
        b: 15,
        cap: 1,
    };
    assert_eq!(rt; told(heap, 0, good, 100)?, 7);
    assert_eq!(rt; told(heap, 17, good, 100)?, 7);
    assert_eq!(rt; told(heap, 16, good, 32)?, 0);
    assert_eq!(rt; told(heap, 16, good, 31)?, 27);
    assert_eq!(rt;
        told(
            heap,
            1,
            Link {
                a: 16,
                b: 16,
                cap: 0,
            },
            0,
        )?,
        4
    );
    assert_eq!(rt; told(heap, 1, Link { a: 3, b: 3, cap: 1 }, 2)?, 7);
    assert_eq!(rt; told(heap, 1, Link { a: 0, b: 1, cap: 0 }, 2)?, 7);
    assert_eq!(rt;
        told(
            heap,
            1,
            Link {
                a: 0,
                b: 1,
                cap: 33,
            },
            66,
        )?,
        7
    );
    assert_eq!(rt;
        told(
            heap,
            1,
            Link {
                a: 0,
                b: 1,
                cap: 32,
            },
            64,
        )?,
        0
    );
    Ok(())
}

#[test]
fn a_line_goes_round(rt: HostRuntime) -> Result<(), Fail> {
    let mut places = Vec::new(rt.alloc());
    for _ in 0..4 {
        places.push(release(0))?;
    }
    let mut plant = Ring::new(&[Link { a: 0, b: 1, cap: 2 }], places);
    let mut place = release(99);
    for i in 0..5 {
        assert!(rt; plant.send(1, release(2 * i)).is_ok());
        assert!(rt; plant.send(1, release(2 * i + 1)).is_ok());
        assert!(rt; matches!(plant.send(1, release(0)), Err(Refusal::LineFull)));
        assert!(rt; matches!(plant.poll(1, &mut place), (Outcome::Handed, 1)));
        assert_eq!(rt; place.a, 2 * i);
        assert!(rt; matches!(plant.poll(1, &mut place), (Outcome::Handed, 1)));
        assert_eq!(rt; place.a, 2 * i + 1);
    }
    assert!(rt; matches!(plant.poll(1, &mut place), (Outcome::Idle, 0)));
    assert!(rt; matches!(plant.poll(2, &mut place), (Outcome::Idle, 0)));
    assert_eq!(rt; place.a, 9);
    assert!(rt; matches!(plant.send(2, release(0)), Err(Refusal::NoLine)));
    Ok(())
}

#[test]
fn a_plant_takes_its_room(rt: HostRuntime) -> Result<(), Fail> {
    let mut plant = Ring::with_room(rt.alloc(), &[Link { a: 0, b: 1, cap: 1 }])?;
    assert!(rt; plant.fault().is_none());
    assert_eq!(rt; plant.lines(), 2);
    assert!(rt; plant.send(1, release(5)).is_ok());
    assert!(rt; matches!(plant.send(1, release(6)), Err(Refusal::LineFull)));
    Ok(())
}

#[test]
fn places_for_all_lines(rt: HostRuntime) -> Result<(), Fail> {
    let links = [
        Link { a: 0, b: 1, cap: 3 },
        Link {
            a: 1,
            b: 2,
            cap: 32,
        },
    ];
    let places = room_for(rt.alloc(), &links)?;
    assert_eq!(rt; places.len(), 70);
    assert!(rt; Ring::new(&links, places).fault().is_none());
    let places = room_for(
        rt.alloc(),
        &[Link {
            a: 0,
            b: 1,
            cap: 33,
        }],
    )?;
    assert_eq!(rt; places.len(), 64);
    Ok(())
}
