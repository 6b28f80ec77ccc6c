// The calls by their codes: the definitions, and the laws of a list of calls.
#![tactic(auto)]
