// The published stack examples, and the edge of each refusal.
use crate::entry::Entry;
use crate::kind::Kind;
use crate::refusal::Refusal;
use crate::stack::Stack;

fn labelled(label: u32) -> Entry {
    Entry {
        label,
        tc: 0,
        ttl: 64,
    }
}

// The number that a push of an entry is refused with, 0 if it is accepted.
fn pushed(stack: &mut Stack, entry: Entry) -> u8 {
    match stack.push(entry) {
        Ok(()) => 0,
        Err(refusal) => refusal.number(),
    }
}

#[test]
fn on_an_empty_stack(rt: HostRuntime) {
    for (label, number) in [
        (16, 0),
        (1, 3),
        (0, 0),
        (2, 0),
        (3, 3),
        (15, 3),
        (1_048_575, 0),
        (1_048_576, 7),
    ] {
        let mut stack = Stack::new();
        assert_eq!(rt; pushed(&mut stack, labelled(label)), number);
    }
}

#[test]
fn above_label_16(rt: HostRuntime) {
    for (label, number) in [
        (1, 0),
        (0, 3),
        (2, 3),
        (3, 3),
        (15, 3),
        (16, 0),
        (1_048_576, 7),
    ] {
        let mut stack = Stack::new();
        assert_eq!(rt; pushed(&mut stack, labelled(16)), 0);
        assert_eq!(rt; pushed(&mut stack, labelled(label)), number);
    }
}

#[test]
fn full_before_rule_before_width(rt: HostRuntime) {
    let mut stack = Stack::new();
    assert_eq!(rt;
        pushed(
            &mut stack,
            Entry {
                label: 3,
                tc: 8,
                ttl: 0,
            },
        ),
        3
    );
    assert_eq!(rt;
        pushed(
            &mut stack,
            Entry {
                label: 16,
                tc: 8,
                ttl: 0,
            },
        ),
        7
    );
    for _ in 0..8 {
        assert_eq!(rt;
            pushed(
                &mut stack,
                Entry {
                    label: 16,
                    tc: 7,
                    ttl: 255,
                },
            ),
            0
        );
    }
    assert_eq!(rt;
        pushed(
            &mut stack,
            Entry {
                label: 3,
                tc: 8,
                ttl: 0,
            },
        ),
        2
    );
    assert_eq!(rt; stack.len(), 8);
}

#[test]
fn pop_gives_the_newest_first(rt: HostRuntime) {
    let mut stack = Stack::new();
    assert_eq!(rt; stack.pop(), None);
    assert_eq!(rt; pushed(&mut stack, labelled(16)), 0);
    assert_eq!(rt; pushed(&mut stack, labelled(1)), 0);
    assert_eq!(rt; stack.top(), Some(labelled(1)));
    assert_eq!(rt; stack.pop(), Some(labelled(1)));
    assert_eq!(rt; stack.pop(), Some(labelled(16)));
    assert_eq!(rt; stack.len(), 0);
}

#[test]
fn numbers_of_kinds(rt: HostRuntime) {
    assert_eq!(rt; Kind::Data.number(), 0);
    assert_eq!(rt; Kind::Mapping.number(), 1);
    assert_eq!(rt; Kind::Withdraw.number(), 2);
    assert_eq!(rt; Kind::Release.number(), 3);
    assert_eq!(rt; Refusal::StackFull.number(), 2);
}
