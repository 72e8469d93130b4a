// The planner's tables by value: rules, loads, the book and the budget, the test of their limits, and their changes.
#![tactic(auto)]

pub mod entry;
pub mod limits;
pub mod load;
pub mod refusal;
pub mod rule;
pub mod tables;
