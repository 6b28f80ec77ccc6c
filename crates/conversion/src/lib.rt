// Conversion of a value between resolved lists (01, "Conversion, sums, comparison"), and that in which factors cancel on both sides (02, order 3), each also with the multiplications that it takes (02, order 5).
// `convert`: `convert`, `cancelling`, `convert_counted`, `cancelling_counted`, `cancelling_rate` with `rated` and `tallied`. None asks anything of its caller.
#![tactic(auto)]

pub mod convert; // a value converted
