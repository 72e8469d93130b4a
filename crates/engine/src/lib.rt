// Planning, whole or by portions, checking and `need`: the cells of a search are filled, the run or the least budget is read from them, and the cells are cleared.
#![tactic(auto)]

mod best;
mod choice;
pub mod figures;
mod filled;
pub mod need;
mod pass;
pub mod plan;
pub mod portion;
