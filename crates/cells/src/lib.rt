// The cells of a search: the best of every branch and row, filled stretch by stretch, and cleared.
#![tactic(auto)]

pub mod cell;
pub mod fill;
pub mod outline;
pub mod problem;
mod stretch;
mod strip;
pub mod work;
