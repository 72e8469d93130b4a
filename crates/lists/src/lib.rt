// Definitions and laws on lists, for any element type and any limit. There is no code here.
#![tactic(auto)]
