// What every floor uses: the numbers that have a name, why a call refuses, and the words of specs (tests, choices, counts, refusals) with their laws.

#![tactic(auto)]

pub mod numbers;
pub mod refusal;
