// The beginning of a table's rows that is admitted: how long it is, and that no row's admission hangs on later rows.
#![tactic(auto)]
