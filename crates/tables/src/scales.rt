// Powers of a scale (01, "Powers and scales"): whole exponents by the power rule, others only on exactly 1; with the multiplications that they take (02, order 5).
ghost use Rattle.std.specs.Prelude.{◌≡◌};
ghost use Rattle.floats.specs.Power.{tally};
ghost use Rattle.tables.specs.Scale.{doubles, counting, raised_to};
ghost use Rattle.tables.specs.Held.{Within};

use exponents::Exponent;
use exponents::refusals::Refusal;
use floats::Tally;

// size to the e, with the multiplications that the power took
#[tactic(auto, using(crate::proofs::Scaling::counted_whole, crate::proofs::Scaling::counted_one, crate::proofs::Scaling::counted_not))]
pub fn counted(size: f64, e: Exponent) -> Result<Tally, Refusal>
    ensures { (result ≡ raised_to (counting doubles) (tally size 0) e) × Within 61 result }
{
    if e.den == 1 {
        return Ok(floats::counted_power(size, e.num));
    }
    if !floats::is_one(size) {
        return Err(Refusal::Fraction);
    }
    Ok(Tally {
        value: 1.0,
        count: 0,
    })
}

// size to the e
#[tactic(auto, using(crate::proofs::Forgetting::plainly))]
pub fn raised(size: f64, e: Exponent) -> Result<f64, Refusal>
    ensures { result ≡ raised_to doubles size e }
{
    counted(size, e).map(|p| p.value)
}
