// The knot vector's core (02, order 4), over values already converted: runs merged from the lowest knot on, and span quotients.
// Public: `faulty`, `surveyed`, `knot_vector`, `span_quotient`. None asks anything of its caller.
#![tactic(auto)]

ghost use Rattle.std.specs.Prelude.{◌≡◌, ◌+◌, ◌≤◌, ◌<◌, length};
ghost use Rattle.knotruns.specs.Values.{argument_fault, unordered as unorderedIn};
ghost use Rattle.knotruns.specs.Runs.{runs};
ghost use Rattle.knotruns.specs.Knots.{uncrowded, vector, quotient, roomy, firsts_into, times_into};
ghost use Rattle.knotruns.specs.Held.{all, standing as standingAt};
ghost use Rattle.exponents.specs.Outcome.{Ok, apply};

use exponents::refusals::Refusal;

// ARGUMENT about count, degree and tolerance: to be asked before any conversion.
#[tactic(auto, using(crate::proofs::Floats::is_finite), unfolding(crate::specs::Values::tolerable, crate::specs::Values::argument_fault))]
pub fn faulty(count: usize, degree: u32, tolerance: f64) -> bool
    ensures { result ≡ argument_fault count degree tolerance }
{
    count < 1
        || 512 < count
        || degree < 1
        || 9 < degree
        || !(tolerance.is_finite() && 0.0 <= tolerance)
}

// ORDER: a NaN, an infinity or a fall. Nothing falls below the first `last`.
#[tactic(auto, using(crate::proofs::Floats::is_finite, crate::proofs::Turns::behind_start, exponents::proofs::Places::rest), unfolding(crate::specs::Values::endless, crate::specs::Values::falls, crate::proofs::Turns::behind))]
fn unordered(values: &[f64]) -> bool
    ensures { result ≡ unorderedIn values.now }
{
    let mut last = f64::NEG_INFINITY;
    for x in values {
        if !x.is_finite() || *x < last {
            return true;
        }
        last = *x;
    }
    false
}

// The runs counted, or MULTIPLE where one has over `most` knots.
#[tactic(auto, using(crate::proofs::Turns::start, exponents::proofs::Places::rest), unfolding(crate::specs::Runs::runs_from, crate::specs::Runs::crowded, crate::specs::Knots::uncrowded, exponents::specs::Outcome::unless))]
fn survey(values: &[f64], tolerance: f64, most: usize) -> Result<usize, Refusal>
    requires { 0 < length values.now }
    ensures { result ≡ apply length (uncrowded most (runs tolerance values.now)) }
{
    let mut first = values[0];
    let mut times = 1;
    let mut number = 0;
    for x in &values[1..] {
        if *x - first <= tolerance {
            times += 1;
        } else {
            if most < times {
                return Err(Refusal::Multiple);
            }
            number += 1;
            first = *x;
            times = 1;
        }
    }
    if most < times {
        return Err(Refusal::Multiple);
    }
    Ok(number + 1)
}

// The number of runs, or the first refusal.
#[tactic(auto, using(crate::proofs::Conversions::all_fault, crate::proofs::Conversions::all_order, crate::proofs::Conversions::all_merged, crate::proofs::Conversions::sound))]
pub fn surveyed(values: &[f64], degree: u32, tolerance: f64) -> Result<usize, Refusal>
    ensures { result ≡ apply length (vector (all values.now) degree tolerance) }
{
    if faulty(values.len(), degree, tolerance) {
        return Err(Refusal::Argument);
    }
    if unordered(values) {
        return Err(Refusal::Order);
    }
    survey(values, tolerance, degree as usize + 1)
}

// The runs, written.
#[tactic(auto, using(crate::proofs::Turns::start, crate::proofs::Turns::some, crate::proofs::Turns::written_on, crate::proofs::Turns::kept_on, exponents::proofs::Places::rest), unfolding(crate::specs::Runs::runs_from))]
fn put(values: &[f64], tolerance: f64, firsts: &mut [f64], times: &mut [u32])
    requires { (0 < length values.now) × (length values.now ≤ 512) × (length (runs tolerance values.now) ≤ length firsts.old) × (length (runs tolerance values.now) ≤ length times.old) }
    ensures { (firsts.new ≡ firsts_into (Ok (runs tolerance values.now)) firsts.old) × (times.new ≡ times_into (Ok (runs tolerance values.now)) times.old) }
{
    let mut first = values[0];
    let mut k = 1;
    let mut j = 0;
    for x in &values[1..] {
        if *x - first <= tolerance {
            k += 1;
        } else {
            firsts[j] = first;
            times[j] = k;
            j += 1;
            first = *x;
            k = 1;
        }
    }
    firsts[j] = first;
    times[j] = k;
}

// The distinct values and their multiplicities into lent places. A refusal, ROOM last, leaves all of them as they are.
#[tactic(auto, using(crate::proofs::Answers::vectored), unfolding(crate::specs::Knots::roomy, exponents::specs::Outcome::unless, exponents::specs::Outcome::bind))]
pub fn knot_vector(
    values: &[f64],
    degree: u32,
    tolerance: f64,
    firsts: &mut [f64],
    times: &mut [u32],
) -> Result<usize, Refusal>
    ensures { (result ≡ apply length (roomy (length firsts.old) (length times.old) (vector (all values.now) degree tolerance))) × (firsts.new ≡ firsts_into (roomy (length firsts.old) (length times.old) (vector (all values.now) degree tolerance)) firsts.old) × (times.new ≡ times_into (roomy (length firsts.old) (length times.old) (vector (all values.now) degree tolerance)) times.old) }
{
    let n = surveyed(values, degree, tolerance)?;
    if firsts.len() < n || times.len() < n {
        return Err(Refusal::Room);
    }
    put(values, tolerance, firsts, times);
    Ok(n)
}

// The first of the run that holds the knot at a place.
#[tactic(auto, using(crate::proofs::Spans::standing_first, crate::proofs::Spans::standing_next, crate::proofs::Spans::next_read))]
fn standing(values: &[f64], tolerance: f64, at: usize) -> f64
    requires { at < length values.now }
    ensures { result ≡ standingAt tolerance values.now at }
{
    let mut first = values[0];
    for next in &values[1..=at] {
        if !(*next - first <= tolerance) {
            first = *next;
        }
    }
    first
}

// The quotient of x in the span whose left knot is at a place.
#[tactic(auto, using(crate::proofs::Answers::vectored, crate::proofs::Answers::quotient_all), unfolding(exponents::specs::Outcome::unless, exponents::specs::Outcome::bind))]
pub fn span_quotient(
    values: &[f64],
    degree: u32,
    tolerance: f64,
    at: usize,
    x: f64,
) -> Result<f64, Refusal>
    ensures { result ≡ quotient (all values.now) degree tolerance at x }
{
    surveyed(values, degree, tolerance)?;
    if values.len() - 1 <= at {
        return Err(Refusal::Argument);
    }
    let left = standing(values, tolerance, at);
    let right = values[at + 1];
    if right - left <= tolerance {
        return Ok(0.0);
    }
    Ok((x - left) / (right - left))
}
