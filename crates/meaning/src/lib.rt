// What the tables mean: definitions and theorems. There is no code here.
#![tactic(auto)]
