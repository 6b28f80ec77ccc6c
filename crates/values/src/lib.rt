// Quantities, and the calls on them that convert nothing (01, "What we take", "Powers and scales", "The refusals"). None of the calls asks anything of its caller.
// `single`: `negate`, `abs`, `no_simplify`, `reduce`. `pairs`: `multiply`, `checked_div`. Each call `f` is the opening, then `f_over`, which does the work over a table that is checked or lists that are opened, however that was done.
#![tactic(auto)]

pub mod answers; // quantities made
pub mod single; // calls on one quantity
pub mod pairs; // product, quotient
