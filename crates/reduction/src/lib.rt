// Base exponents and scale of lists, and what stands on them: reduction, the smaller of two units, multiples (01, "Powers and scales", "Simplification").
// `bases`: `base_of`, `base_exponents`, `counted_scale`, `scale_from`, `scale_of`, `same_exponents`, `all_zero`. `reduce`: `reduce_list`, `smaller_unit`. `multiples`: `is_multiple_of`. None asks anything of its caller.
#![tactic(auto)]

pub mod bases; // base exponents and scale of a list
pub mod reduce; // reduction, smaller_unit
pub mod multiples; // is_multiple_of
