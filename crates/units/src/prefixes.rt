// Prefixes: their rule and their factor by the power rule (01, "Records and sizes", "Powers and scales"), with the multiplications that it takes (02, order 5).
ghost use Rattle.std.specs.Prelude.{◌≡◌, ◌≤◌};
ghost use Rattle.floats.specs.Power.{tally};
ghost use Rattle.units.specs.Prefixes.{number_fault, prefix_fault, factor_of, factor_count, prefix_factor};

use super::Prefix;
use exponents::refusals::Refusal;
use floats::Tally;

// n is beyond -1100 to 1100
fn number_fault(n: i32) -> bool
    ensures { result ≡ number_fault n }
{
    (n < -1100) | (1100 < n)
}

// Whether a prefix breaks its rule.
pub fn prefix_fault(p: Prefix) -> bool
    ensures { result ≡ prefix_fault p }
{
    match p {
        Prefix::Metric(n) => number_fault(n),
        Prefix::Binary(n) => number_fault(n),
    }
}

// The factor of any prefix, 10 or 2 to the n, with the multiplications that it took.
pub fn counted_factor(p: Prefix) -> Tally
    ensures { (result ≡ tally (factor_of p) (factor_count p)) × (result.count ≤ 61) }
{
    match p {
        Prefix::Metric(n) => floats::counted_power(10.0, n),
        Prefix::Binary(n) => floats::counted_power(2.0, n),
    }
}

// The factor alone.
pub fn factor_of(p: Prefix) -> f64
    ensures { result ≡ factor_of p }
{
    counted_factor(p).value
}

// The factor of a prefix that keeps its rule; SHAPE of another.
#[tactic(auto, unfolding(crate::specs::Prefixes::prefix_factor, exponents::specs::Outcome::unless))]
pub fn prefix_factor(p: Prefix) -> Result<f64, Refusal>
    ensures { result ≡ prefix_factor p }
{
    if prefix_fault(p) {
        return Err(Refusal::Shape);
    }
    Ok(factor_of(p))
}
