// No code: what the audit's numbers say of the exact ones is said by theorems in specs/.

#![tactic(auto)]
