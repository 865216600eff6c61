// No code: what an area is for is said by theorems in specs/, on the exact sums of a ring and on their rounding.

#![tactic(auto)]
