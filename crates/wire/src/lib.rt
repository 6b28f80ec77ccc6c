// The byte form of the records: read, written, and as the arguments of a call.
// `numbers`: little-endian numbers. `reading` and `writing`: the records. `arguments`: any bytes as an argument.
#![tactic(auto)]

pub mod numbers; // numbers of 2, 4 and 8 bytes
pub mod reading; // records from bytes
pub mod writing; // records into bytes
pub mod arguments; // any bytes as a call's arguments
