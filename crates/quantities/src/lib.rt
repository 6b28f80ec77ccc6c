// Conversion and comparison of quantities (01, "Conversion, sums, comparison", "The refusals"; 02, order 3). None of the calls asks anything of its caller.
// `conversions`: `convert_to`, `convert_merged`. `comparisons`: `equal`, `compare`. Each has a half, `.._over`, for a table and lists that are opened already.
#![tactic(auto)]

pub mod conversions; // conversion
pub mod comparisons; // equality, order
