// No code: that a told reason is the true one is in specs/.

#![tactic(auto)]
