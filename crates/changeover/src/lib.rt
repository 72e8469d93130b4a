// Switching over from one set of loads to another: `order_of` gives the steps by value, and `switch_over` writes them to a lent list.
#![tactic(auto)]

pub mod order;
mod sets;
pub mod writing;
