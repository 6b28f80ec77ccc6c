// The promises of 02's order 4 on knot vectors and span quotients: theorems only.
#![tactic(auto)]
