// Starting a network from a plan and a plant.
ghost use Rattle.std.specs.Prelude.{◌≡◌, ◌<◌, [], IfOk, nat_lt};
ghost use Rattle.plant.specs.Plants.{total};
ghost use Rattle.model.specs.Tables.{first, is_some};
ghost use Rattle.model.specs.History.{is_outside, is_still};
ghost use Rattle.model.specs.Promises.{RunsSafe};
ghost use Rattle.labels.specs.Wirings.{Wired};
ghost use Rattle.book.specs.Books.{book_of};
ghost use Rattle.network.specs.Networks.{plan_of, Fits, Started};

use crate::network::Network;
use crate::routers::Routers;
use book::Book;
use labels::Wiring;
use lookup::{Address, Plan, Policy};
use plant::{Plant, nothing_waits};
use std::alloc::{AllocError, Global};
use tables::Tables;

// The lines of a plant, as the routers know them.
fn wiring_of<P: Plant>(plant: &P) -> Wiring
    ensures { Wired result (P.value plant.now).shape }
{
    let mut wiring = Wiring::none();
    // a loop and no iterator: each line is added to the wiring
    for line in 0..plant.lines() {
        let (from, to) = plant.ends(line).unwrap();
        let _ = wiring.add(from, to);
    }
    wiring
}

// Whether something waits on a plant.
fn is_busy<P: Plant>(plant: &P) -> bool
    ensures { result ≡ nat_lt 0 (total (P.value plant.now)) }
{
    !nothing_waits(plant)
}

// Whether a line has an end at a router outside the plan.
fn is_outside<P: Plant>(plan: &Plan, plant: &P, line: usize) -> bool
    requires { line < (P.value plant.now).shape.lines }
    ensures { result ≡ is_outside (plan_of plan.now) (P.value plant.now).shape line }
{
    let (from, to) = plant.ends(line).unwrap();
    plan.routers() as usize <= from || plan.routers() as usize <= to
}

// Whether some line has.
fn leads_out<P: Plant>(plan: &Plan, plant: &P) -> bool
    ensures { result ≡ is_some (first (is_outside (plan_of plan.now) (P.value plant.now).shape) 0 (P.value plant.now).shape.lines) }
{
    (0..plant.lines()).any(|line| is_outside(plan, plant, line))
}

// Whether a network stands still.
fn is_still<P: Plant>(plan: &Plan, plant: &P) -> bool
    ensures { result ≡ is_still (plan_of plan.now) (P.value plant.now) }
{
    plan.fault().is_some() || leads_out(plan, plant) || is_busy(plant) || plant.kept() < 80
}

// The routers of a plan on a plant, before anything has happened.
fn routers_of<P: Plant>(plan: Plan, book: Book<Address>, plant: &P) -> Routers
    requires { book_of book ≡ [] }
    ensures fits { Fits result (P.value plant.now) }
    ensures started { Started result plan (P.value plant.now) }
{
    let still = is_still(&plan, plant);
    let independent = plan.policy() == Policy::Independent;
    let tables = Tables::new(wiring_of(plant), independent);
    Routers {
        plan,
        still,
        tables,
        book,
    }
}

// Starts a network. It stands still if the plan is void, a line ends at a router outside it, something waits, or kept is
// under 80. Whatever calls are made of it, and whatever the plant does, every run is safe.
pub fn start<P: Plant + Drop>(heap: Global, plan: Plan, plant: P) -> Result<Network<P>, AllocError>
    ensures started { IfOk result (λ n. Started n.routers plan (P.Plant.value plant)) }
    ensures plant { IfOk result (λ n. n.plant ≡ plant) }
    ensures promise { RunsSafe (plan_of plan) (P.Plant.value plant) }
{
    let book = Book::new(heap)?;
    let routers = routers_of(plan, book, &plant);
    Ok(Network { routers, plant })
}
