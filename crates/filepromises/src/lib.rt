// The promises of 02's order 1 on table files: theorems only.
#![tactic(auto)]
