// All tables of all routers.
ghost use Rattle.std.specs.Prelude.{◌≡◌};
ghost use Rattle.model.specs.Tables.{blank};
ghost use Rattle.tables.specs.Reading.{tables_of};

use crate::releases::Releases;
use crate::remotes::Remotes;
use crate::routes::Routes;
use labels::{Labels, Wiring};

#[derive(Drop)]
pub struct Tables {
    // a flag, as in the model: the policy's enum is the plan's, which is no matter of the tables
    pub(crate) independent: bool,
    pub(crate) routes: Routes,
    pub(crate) remotes: Remotes,
    pub(crate) releases: Releases,
    pub(crate) labels: Labels,
}

impl Tables {
    // Everything off, none, free or untold, under a policy and over the lines of a wiring.
    pub fn new(wiring: Wiring, independent: bool) -> Tables
        ensures tables { tables_of result ≡ blank }
        ensures wiring { result.labels.wiring ≡ wiring }
        ensures policy { result.independent ≡ independent }
        ensures lines { result.routes.lines ≡ wiring.lines }
    {
        Tables {
            independent,
            routes: Routes::new(wiring.lines()),
            remotes: Remotes::new(),
            releases: Releases::new(),
            labels: Labels::new(wiring),
        }
    }
}
