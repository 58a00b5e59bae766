// The rules of a ring plant, in their order.
ghost use Rattle.std.specs.Prelude.{◌≡◌, ◌^◌, ◌<◌, ◌≤◌, length, None, sum_by};
ghost use Rattle.frame.specs.Numbers.{refused_by};
ghost use Rattle.ring.specs.Links.{link_refusal, links_refusal, taken, ring_refusal};

use crate::link::Link;
use frame::Refusal;

// Whether one link may stand, or the first rule that it breaks.
fn check_link(link: Link) -> Result<(), Refusal>
    ensures { refused_by result ≡ link_refusal link }
{
    if link.a > 15 || link.b > 15 {
        return Err(Refusal::NoRouter);
    }
    if link.a == link.b || link.cap < 1 || link.cap > 32 {
        return Err(Refusal::OutOfRange);
    }
    Ok(())
}

// Whether each link may stand, or the rule that the first bad one breaks.
fn check_links(links: &[Link]) -> Result<(), Refusal>
    ensures { refused_by result ≡ links_refusal links.now }
{
    for link in links {
        check_link(*link)?;
    }
    Ok(())
}

// The caps of all links together.
fn caps(links: &[Link]) -> usize
    requires { sum_by (λ k. k.cap) links.now < 2 ^ 64 }
    ensures { result ≡ sum_by (λ k. k.cap) links.now }
{
    links.iter().map(|link| link.cap).sum()
}

// How many places the lines of all links take.
fn places_taken(links: &[Link]) -> usize
    requires few { length links.now ≤ 16 }
    requires links { links_refusal links.now ≡ None }
    ensures { result ≡ taken links.now (length links.now) }
{
    2 * caps(links)
}

// Whether links and places make a plant, or the first rule that they break.
pub(crate) fn survey(links: &[Link], places: usize) -> Result<(), Refusal>
    ensures { refused_by result ≡ ring_refusal links.now places }
{
    if links.len() < 1 || links.len() > 16 {
        return Err(Refusal::OutOfRange);
    }
    check_links(links)?;
    if places < places_taken(links) {
        return Err(Refusal::BufferShort);
    }
    Ok(())
}
