// A plan: how many routers, the policy, and the FECs in the order added. A void plan has 0 routers, and takes no FEC.
ghost use Rattle.std.specs.Prelude.{◌≤◌, vec_len, vec_capacity};
ghost use Rattle.lookup.specs.Tables.{AllFit, Apart};

use crate::fec::Fec;

// When a router may bind a label for a FEC that it does not own.
#[derive(Clone, Copy, PartialEq, Eq, Debug)]
pub enum Policy {
    // only once it has learned one from its next hop
    Ordered,
    // as soon as it has a next hop
    Independent,
}

// What a plan that is not void was made with.
#[derive(Clone, Copy)]
pub(crate) struct Setting {
    pub(crate) routers: u32,
    pub(crate) policy: Policy,
    ghost least: { 1 ≤ routers },
    ghost most: { routers ≤ 16 },
}

#[derive(Drop)]
pub struct Plan {
    // none in a void plan
    pub(crate) setting: Option<Setting>,
    pub(crate) fecs: Vec<Fec>,
    ghost few: { vec_len fecs ≤ 32 },
    ghost room: { 32 ≤ vec_capacity fecs },
    ghost fit: { AllFit fecs.items },
    ghost apart: { Apart fecs.items },
}
