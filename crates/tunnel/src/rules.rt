// The rules of a path over a plant, each decided.
ghost use Rattle.std.specs.Prelude.{◌≡◌, ℕ, ◌+◌, ◌-◌, ◌<◌, ◌≤◌, ◌≢◌, ◌⊎◌, IfOk, MatchBool};
ghost use Rattle.frame.specs.Numbers.{refused_by};
ghost use Rattle.plant.specs.Plants.{partner};
ghost use Rattle.tunnel.specs.Held.{Exist, Chained, Apart, Open as OpenEnded, Wide};
ghost use Rattle.tunnel.specs.Rules.{rule_broken};
ghost use Rattle.tunnel.specs.Inner.{InRange, Through, Able, JoinsAt, WideAt};

use crate::laid::Laid;
use crate::path::Path;
use frame::Refusal;
use plant::{Plant, nothing_waits, partner_of};

// A path that keeps the rules, or else the first that it breaks.
pub(crate) fn judge<P: Plant>(below: &P, path: Path) -> Result<Path, Refusal>
    requires base { path.base ≡ (P.value below.now).shape.kept - path.len }
    ensures refused { refused_by result ≡ rule_broken (P.value below.now) path }
    ensures path { IfOk result (λ p. p ≡ path) }
{
    if !in_range(&path) {
        return Err(Refusal::OutOfRange);
    }
    if !exist(below, &path) {
        return Err(Refusal::NoLine);
    }
    let laid = Laid { below, path: &path };
    if !laid.leads_through() {
        return Err(Refusal::NoPath);
    }
    if !laid.can_carry() {
        return Err(Refusal::Unfit);
    }
    Ok(path)
}

// Whether there are 1 to 8 hops, and the window is 1 to 31.
fn in_range(path: &Path) -> bool
    ensures { MatchBool result (InRange path.now) (InRange path.now → ⊥) }
{
    path.len >= 1 && path.len <= 8 && path.window >= 1 && path.window <= 31
}

// Whether the path's lines exist.
fn exist<P: Plant>(below: &P, path: &Path) -> bool
    requires few { path.now.len ≤ 8 }
    ensures { MatchBool result (Exist (P.value below.now).shape path.now) (Exist (P.value below.now).shape path.now → ⊥) }
{
    path.hops().iter().all(|line| *line < below.lines())
}

// Whether two lines are of one link.
fn same_link(one: usize, two: usize) -> bool
    ensures { MatchBool result ((one ≡ two) ⊎ (one ≡ partner two)) ((one ≢ two) × (one ≢ partner two)) }
{
    one == two || one == partner_of(two)
}

// Whether no link comes twice.
fn apart(path: &Path) -> bool
    requires few { path.now.len ≤ 8 }
    ensures { MatchBool result (Apart path.now) (Apart path.now → ⊥) }
{
    // a loop: a chain in the closure of a chain is no plainer
    let hops = path.hops();
    for (i, two) in hops.iter().enumerate() {
        if hops[..i].iter().any(|one| same_link(*one, *two)) {
            return false;
        }
    }
    true
}

impl<P: Plant> Laid<'_, P> {
    // Whether the lines lead on from one to the next, over each link at most once, and to another router.
    fn leads_through(&self) -> bool
        ensures { MatchBool result (Through (P.value self.now.below.now).shape self.now.path.now) (Through (P.value self.now.below.now).shape self.now.path.now → ⊥) }
    {
        self.chained() && apart(self.path) && self.open_ended()
    }

    // Whether each line begins where the one before ends.
    fn chained(&self) -> bool
        ensures { MatchBool result (Chained (P.value self.now.below.now).shape self.now.path.now) (Chained (P.value self.now.below.now).shape self.now.path.now → ⊥) }
    {
        (1..self.path.len).all(|i| self.joins(i))
    }

    // Whether the line of a hop forth begins where that of the hop before ends.
    fn joins(&self, i: usize) -> bool
        requires first { 1 ≤ i }
        requires last { i < self.now.path.now.len }
        ensures { MatchBool result (JoinsAt (P.value self.now.below.now).shape self.now.path.now i) (JoinsAt (P.value self.now.below.now).shape self.now.path.now i → ⊥) }
    {
        let (_, to) = self.below.ends(self.path.lines[i - 1]).unwrap();
        let (from, _) = self.below.ends(self.path.lines[i]).unwrap();
        from == to
    }

    // Whether the path ends elsewhere than it begins.
    fn open_ended(&self) -> bool
        ensures { MatchBool result (OpenEnded (P.value self.now.below.now).shape self.now.path.now) (OpenEnded (P.value self.now.below.now).shape self.now.path.now → ⊥) }
    {
        let (from, _) = self.below.ends(self.path.lines[0]).unwrap();
        let (_, to) = self.below.ends(self.path.lines[self.path.len - 1]).unwrap();
        from != to
    }

    // Whether the plant below can carry a tunnel along the path.
    fn can_carry(&self) -> bool
        ensures { MatchBool result (Able (P.value self.now.below.now) self.now.path.now) (Able (P.value self.now.below.now) self.now.path.now → ⊥) }
    {
        self.below.lines() <= 46
            && nothing_waits(self.below)
            && self.below.depth() >= 2
            && self.below.kept() as usize >= 80 + self.path.len
            && self.wide()
            && self.travelled(false) <= 2_097_152
            && self.travelled(true) <= 2_097_152
    }

    // Whether the caps of the path's lines and of their partners exceed the window.
    fn wide(&self) -> bool
        ensures { MatchBool result (Wide (P.value self.now.below.now).shape self.now.path.now) (Wide (P.value self.now.below.now).shape self.now.path.now → ⊥) }
    {
        self.path.hops().iter().all(|line| self.wide_at(*line))
    }

    // Whether a line exists, and its cap and its partner's exceed the window.
    fn wide_at(&self, line: usize) -> bool
        ensures { MatchBool result (WideAt (P.value self.now.below.now).shape self.now.path.now.window line) (WideAt (P.value self.now.below.now).shape self.now.path.now.window line → ⊥) }
    {
        let exceeds = |line| self
            .below
            .cap(line)
            .is_some_and(|cap| cap > self.path.window);
        exceeds(line) && exceeds(partner_of(line))
    }
}
