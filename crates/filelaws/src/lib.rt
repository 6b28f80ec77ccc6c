// The table file's laws (02, order 1): what a cut leaves, and how long a file is.
#![tactic(auto)]
