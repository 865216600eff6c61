// No code: what holds of every build is in specs/: its theorems, the laws that they rest on, and more rows of the builder's definition (crate definition).

#![tactic(auto)]
