// Keys of rows (01, "Canonical form"), made of base exponents, and their order.
#![tactic(auto)]

pub mod making; // a row's key
pub mod order; // comparing keys
