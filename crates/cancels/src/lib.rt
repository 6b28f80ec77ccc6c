// The promises of 02's order 3 on the two conversions beside each other: theorems only.
#![tactic(auto)]
