// The calls on lists over a table (01, "The refusals", "Canonical form", "Powers and scales", "Simplification"). None asks anything of its caller.
// `joins`: `product`, `quotient`, `list_power`. `forms`: `canonical`, `same_list`. `reductions`: `reduce_list`, `smaller_unit`, `is_multiple_of`. Each call `f` is the opening, then `f_over`, which does the work over a table that is checked or lists that are opened, however that was done.
#![tactic(auto)]

pub mod opening; // a table and two lists, checked
pub mod joins; // lists joined, unmerged
pub mod forms; // canonical form, equality
pub mod reductions; // base exponents and scales
