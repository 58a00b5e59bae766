// A network over a plant: the wiring that its routers know is that of the plant.
ghost use Rattle.network.specs.Networks.{Fits};

use crate::routers::Routers;
use plant::Plant;

#[derive(Drop)]
pub struct Network<P: Plant> {
    pub(crate) routers: Routers,
    pub(crate) plant: P,
    ghost fits: { Fits routers (P.value plant) },
}
