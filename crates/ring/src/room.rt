// Places for a ring plant, taken from the heap by whoever makes one.
ghost use Rattle.std.specs.Prelude.{◌≡◌, ◌*◌, IfOk, length, min, sum_by, vec_len};
ghost use Rattle.frame.specs.Numbers.{told_by};
ghost use Rattle.ring.specs.Links.{taken, ring_refusal, fresh_shape, none_waits};
ghost use Rattle.ring.specs.Rings.{shape_of, lists_of};

use crate::link::Link;
use crate::ring::Ring;
use frame::Frame;
use std::alloc::{AllocError, Global};

// Blank places for both lines of each link, to be handed to `Ring::new`; a cap above 32, which is refused there, counts as 32.
pub fn room_for(heap: Global, links: &[Link]) -> Result<Vec<Frame>, AllocError>
    ensures { IfOk result (λ places. vec_len places ≡ sum_by (λ k. 2 * min k.cap 32) links.now) }
{
    let mut places = Vec::new(heap);
    for link in links {
        places.resize_with(places.len() + 2 * link.cap.min(32), Frame::default)?;
    }
    Ok(places)
}

impl Ring {
    // The plant of these links, in as many places as its lines take, for a caller who has no places of its own.
    pub fn with_room(heap: Global, links: &[Link]) -> Result<Ring, AllocError>
        ensures fault { IfOk result (λ r. told_by r.fault ≡ ring_refusal links.now (taken links.now (length links.now))) }
        ensures shape { IfOk result (λ r. shape_of r ≡ fresh_shape links.now (taken links.now (length links.now))) }
        ensures still { IfOk result (λ r. lists_of r ≡ none_waits) }
    {
        Ok(Ring::new(links, room_for(heap, links)?))
    }
}
