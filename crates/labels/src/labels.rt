// The labels of all routers. No label is taken between two calls: a grant is spent in the call that got it.
ghost use Rattle.labels.specs.Pools.{Settled};

use crate::pool::Pool;
use crate::stages::Stages;
use crate::wiring::Wiring;

#[derive(Drop)]
pub struct Labels {
    pub(crate) wiring: Wiring,
    pub(crate) pool: Pool,
    pub(crate) stages: Stages,
    ghost settled: { Settled pool },
}
