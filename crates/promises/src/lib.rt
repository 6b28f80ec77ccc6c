// The demands as theorems over the definitions of the public calls, the starred cases of 01's bench list, and cases of the rules that the demands leave free.
#![tactic(auto)]
