// The plant contract: what every carrier of frames means, obeys and answers.
#![tactic(auto)]

pub mod label;
pub mod outcome;
pub mod partner;
pub mod plant;
pub mod waiting;

pub use crate::label::label_kept;
pub use crate::outcome::Outcome;
pub use crate::partner::partner_of;
pub use crate::plant::Plant;
pub use crate::waiting::nothing_waits;
