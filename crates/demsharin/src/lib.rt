// The library as it ships: the calls over lent rows, passed on here, and over bytes, in `exports`, `file_exports`,
// `knot_exports` and `counted_exports`. The crate demsharin_c has the latter as C functions.
#![tactic(auto)]

pub use lentcalls::{
    abs, add, canonical, checked_div, checked_power, compare, convert_merged,
    convert_merged_counted, convert_to, convert_to_counted, equal, full_simplify,
    full_simplify_with, is_multiple_of, list_power, multiply, negate, no_simplify, prefix_factor,
    product, quotient, reduce, reduce_list, same_list, smaller_unit, subtract,
};
pub use lentfiles::{read_table, salvage_table, write_table};
pub use lentknots::{knot_vector, span_quotient};

pub mod exports; // every call of 01, and 02's conversions, over bytes
pub mod file_exports; // the calls on table files over bytes
pub mod knot_exports; // the calls on knot vectors over bytes
pub mod counted_exports; // the counted conversions over bytes
