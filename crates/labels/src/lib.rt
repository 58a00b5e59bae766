// The routers' labels: the pool that labels are granted from, their statuses, how far each has been told, and the refresh.
#![tactic(auto)]

pub mod grant;
pub mod labels;
mod lines;
pub mod pool;
mod questions;
mod refreshing;
pub mod stage;
mod stages;
pub mod status;
mod telling;
pub mod wiring;

pub use crate::grant::Grant;
pub use crate::labels::Labels;
pub use crate::pool::Pool;
pub use crate::stage::Stage;
pub use crate::status::Status;
pub use crate::wiring::Wiring;
