// The promises of 02's order 2 on which half of a fraction left its range: theorems only.
#![tactic(auto)]
