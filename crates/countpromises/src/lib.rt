// The promises of 02's order 5 on counted conversions: theorems only.
#![tactic(auto)]
