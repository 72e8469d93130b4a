// A run by value, and the outcome of a plan, which the planner keeps beside the tables.
#![tactic(auto)]

pub mod outcome;
pub mod run;
