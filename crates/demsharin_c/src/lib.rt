// The library for C: the calls of demsharin over bytes as exported functions, a slice as a pointer and a length. Each
// passes on what it is given, and promises what the call does.
#![tactic(auto)]

pub mod counted_exports; // the counted conversions
pub mod exports; // every call of 01, and 02's conversions
pub mod file_exports; // the calls on table files
pub mod knot_exports; // the calls on knot vectors
