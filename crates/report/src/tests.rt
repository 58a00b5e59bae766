// The rows of the published worked plan, as text.
use crate::row::Row;
use crate::text::report;
use model::{Cause, Fate};
use std::test::Fail;

fn packet(
    number: usize,
    fec: Option<usize>,
    fate: Fate,
    router: Option<usize>,
    cause: Option<Cause>,
) -> Row {
    Row::Packet {
        number,
        ingress: 0,
        fec,
        fate,
        router,
        cause,
    }
}

#[test]
fn the_worked_plan(rt: HostRuntime) -> Result<(), Fail> {
    let rows = [
        Row::Fault {
            line: 12,
            number: 6,
        },
        packet(0, Some(0), Fate::Delivered, Some(1), None),
        packet(1, Some(0), Fate::Waiting, None, None),
        packet(2, None, Fate::Dropped, Some(0), Some(Cause::NoMatch)),
        Row::Totals {
            taken: 3,
            delivered: 1,
            dropped: 1,
            waiting: 1,
        },
    ];
    let text = report(rt.alloc(), &rows)?;
    assert_eq!(rt;
        text.as_str(),
        "E,12,6\nK,0,0,0,D,1,0\nK,1,0,0,W,-,0\nK,2,0,-,X,0,1\nZ,3,1,1,1\n"
    );
    Ok(())
}
