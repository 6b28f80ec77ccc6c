// The records of units and quantities (01, "Records and sizes"), and what needs no table: prefixes and lists of factors.
// `prefixes`: `prefix_factor`. `lists`: `check_list`, `product`, `quotient`, `list_power`.
#![tactic(auto)]

use exponents::Exponent;

pub mod prefixes; // their rule and their factor
pub mod lists; // lists of factors: shape, product, quotient, power

// Any bits may stand in these records. A struct's array comes first.

// 10 or 2 to the n. Metric(0) and Binary(0) both mean none, yet differ.
#[derive(Clone, Copy, Drop)]
pub enum Prefix {
    Metric(i32),
    Binary(i32),
}

#[derive(Clone, Copy, Drop)]
pub struct Factor {
    pub row: u32,
    pub prefix: Prefix,
    pub exponent: Exponent,
}

// The first `len` places; what stands past them is never read.
#[derive(Clone, Copy, Drop)]
pub struct Factors {
    pub at: [Factor; 16],
    // Kept: no heap, so a buffer of a fixed size and how many of its places hold something.
    pub len: usize,
}

// What a row is: base, or derived with its factor.
#[derive(Clone, Copy, Drop)]
pub enum Kind {
    Base,
    Derived(f64),
}

#[derive(Clone, Copy, Drop)]
pub struct Row {
    pub def: [Factor; 8],
    // Kept: no heap, so a buffer of a fixed size and how many of its places hold something.
    pub len: usize,
    pub rank: u16,
    pub kind: Kind,
}

// `len` is the true count: over 128 is TABLE.
#[derive(Clone, Copy, Drop)]
pub struct Rows {
    pub at: [Row; 128],
    // Kept: no heap, so a buffer of a fixed size and how many of its places hold something.
    pub len: usize,
}

// A binary64 value, a factor list and the mark that permits simplifying.
#[derive(Clone, Copy, Drop)]
pub struct Quantity {
    pub unit: Factors,
    pub value: f64,
    pub mark: bool,
}

#[derive(Clone, Copy, Drop)]
pub struct Candidate {
    pub unit: Factors,
    pub rank: u16,
}

// `len` is the true count: over 32 is SHAPE.
#[derive(Clone, Copy, Drop)]
pub struct Candidates {
    pub at: [Candidate; 32],
    // Kept: no heap, so a buffer of a fixed size and how many of its places hold something.
    pub len: usize,
}
