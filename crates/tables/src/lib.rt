// The routers' tables: owner marks and next hops, remote labels, due releases, labels and stages.
#![tactic(auto)]

pub mod asking;
pub mod changing;
pub mod message;
pub mod releases;
pub mod remotes;
pub mod routes;
pub mod routing;
pub mod tables;
pub mod telling;

pub use crate::message::Message;
pub use crate::releases::Releases;
pub use crate::remotes::Remotes;
pub use crate::routes::Routes;
pub use crate::tables::Tables;
