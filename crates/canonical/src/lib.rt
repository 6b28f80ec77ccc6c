// The canonical form of lists, and their equality (01, "Canonical form").
// `form`: `canonical`, `same`. `equality`: `equal`. None asks anything of its caller.
#![tactic(auto)]

pub mod form; // canonical form
pub mod equality; // equality by canonical forms
