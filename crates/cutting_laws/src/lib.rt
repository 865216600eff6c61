// No code: what pieces by cutting are for, as theorems in specs/.

#![tactic(auto)]
