// The walk of the neighbour search (document 01, "The walk"): definitions and laws over any table and look-up, and no
// code.
#![tactic(auto)]
