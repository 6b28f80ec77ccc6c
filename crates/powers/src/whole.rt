// A value as a whole exponent (01, "The refusals"): NONWHOLE, then RANGE.
ghost use Rattle.std.specs.Prelude.{◌≡◌};
ghost use Rattle.powers.specs.Whole as spec;

use exponents::refusals::Refusal;

// A whole number within ±2147483647.
pub fn whole_exponent(x: f64) -> Result<i32, Refusal>
    ensures { result ≡ spec.whole_exponent x }
{
    // `x % 1.0` says the same, and the compiler makes of it a call of the C library's `fmod`
    if x.fract() != 0.0 {
        return Err(Refusal::NonWhole);
    }
    if x <= 2147483647.0 && x >= -2147483647.0 {
        return Ok(std::num::truncating_f64_to_i64(x) as i32);
    }
    Err(Refusal::Range)
}
