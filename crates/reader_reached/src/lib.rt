// That a state which is not taken for a damaged one is one that a reading leaves: no code.

#![tactic(auto)]
