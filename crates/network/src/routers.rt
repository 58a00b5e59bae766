// What a network holds beside its plant.
ghost use Rattle.network.specs.Steadiness.{Steady};

use book::Book;
use lookup::{Address, Plan};
use tables::Tables;

#[derive(Drop)]
pub struct Routers {
    pub(crate) plan: Plan,
    // The network stands still, and refuses every call. A flag: it is asked about its tables and book like one that runs.
    pub(crate) still: bool,
    pub(crate) tables: Tables,
    pub(crate) book: Book<Address>,
    ghost steady: { Steady plan still tables },
}
