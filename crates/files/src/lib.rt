// The table file (02, order 1): the definitions of its factors, rows and tables, written and read, and their laws.
#![tactic(auto)]
