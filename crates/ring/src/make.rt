// The ring plant, made from links and places.
ghost use Rattle.std.specs.Prelude.{◌≡◌, ℕ, ◌+◌, ◌*◌, ◌<◌, ◌≤◌, length, None, vec_len};
ghost use Rattle.frame.specs.Numbers.{told_by};
ghost use Rattle.ring.specs.Links.{links_refusal, taken, line_of, ring_refusal, fresh_shape, none_waits};
ghost use Rattle.ring.specs.Rows.{row_at, row_line};
ghost use Rattle.ring.specs.Laid.{Laid};
ghost use Rattle.ring.specs.Rings.{shape_of, lists_of};

use crate::link::Link;
use crate::ring::Ring;
use crate::row::Row;
use crate::survey::survey;
use frame::Frame;

// The rows of the links, one behind the other in the places.
fn lay(links: &[Link]) -> [Row; 32]
    requires few { length links.now ≤ 16 }
    requires links { links_refusal links.now ≡ None }
    ensures lines { (l : ℕ) → row_line (row_at result l) ≡ line_of links.now l }
    ensures laid { Laid result (2 * length links.now) (taken links.now (length links.now)) }
{
    let mut rows = [Row::default(); 32];
    let mut base = 0;
    // a loop: each link writes two rows, and the places are counted on from link to link
    for (i, link) in links.iter().enumerate() {
        let Link { a, b, cap } = *link;
        rows[2 * i] = Row {
            from: a,
            to: b,
            cap,
            base,
            head: 0,
            len: 0,
        };
        rows[2 * i + 1] = Row {
            from: b,
            to: a,
            cap,
            base: base + cap,
            head: 0,
            len: 0,
        };
        base += 2 * cap;
    }
    rows
}

impl Ring {
    // The plant of these links in these places, or one without lines that tells which rule was broken first.
    pub fn new(links: &[Link], places: Vec<Frame>) -> Ring
        ensures fault { told_by result.fault ≡ ring_refusal links.now (vec_len places) }
        ensures shape { shape_of result ≡ fresh_shape links.now (vec_len places) }
        ensures still { lists_of result ≡ none_waits }
    {
        if let Err(refusal) = survey(links, places.len()) {
            return Ring {
                rows: [Row::default(); 32],
                lines: 0,
                places,
                fault: Some(refusal),
            };
        }
        Ring {
            rows: lay(links),
            lines: 2 * links.len(),
            places,
            fault: None,
        }
    }
}
