// 01's table "The refusals" and those of 02's orders. `specs/Outcome` has the same under 01's names.
ghost use Rattle.std.specs.Prelude.{◌≡◌};
ghost use Rattle.exponents.specs.Outcome.{number};

// Why a call refuses.
#[derive(Clone, Copy, Debug, PartialEq, Eq, Drop)]
pub enum Refusal {
    // over 128 rows, or a row breaks the table rules
    Table,
    // a list is too long, a prefix or exponent breaks its rule, or candidates don't rise in rank
    Shape,
    // a list names a row that isn't there
    Unknown,
    // a product or quotient has over 16 factors before merging; too little room for an answer
    Room,
    // an exponent's numerator leaves its range
    Range,
    // unlike base exponents, nonzero value
    Units,
    // a scale other than 1 meets an exponent that isn't whole
    Fraction,
    // the divisor's value is zero of either sign
    DivZero,
    // zero value, exponent below zero
    ZeroNeg,
    // power by a value that isn't whole
    NonWhole,
    // comparison with a NaN operand, or a NaN after conversion
    Nan,
    // a file that breaks the rules of a table file (02, order 1)
    Format,
    // an exponent's denominator, with its numerator in range, or a common multiple of denominators leaves its range (02, order 2)
    Denominator,
    // a knot vector's values fall, or one is a NaN or infinite (02, order 4)
    Order,
    // a knot's multiplicity is above degree plus one (02, order 4)
    Multiple,
    // a bad count, degree, tolerance or span (02, order 4)
    Argument,
}

// The number by which 01 and 02 hand a refusal over.
impl From<Refusal> for u32 {
    ghost from_gives = { λ r n. n ≡ number r };

    fn from(refusal: Refusal) -> u32 {
        match refusal {
            Refusal::Table => 1,
            Refusal::Shape => 2,
            Refusal::Unknown => 3,
            Refusal::Room => 4,
            Refusal::Range => 5,
            Refusal::Units => 6,
            Refusal::Fraction => 7,
            Refusal::DivZero => 8,
            Refusal::ZeroNeg => 9,
            Refusal::NonWhole => 10,
            Refusal::Nan => 11,
            Refusal::Format => 12,
            Refusal::Denominator => 13,
            Refusal::Order => 14,
            Refusal::Multiple => 15,
            Refusal::Argument => 16,
        }
    }
}
