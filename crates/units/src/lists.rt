// Lists of factors: their shape, and product, quotient and power, unmerged (01, "Records and sizes", "Canonical form").
ghost use Rattle.std.specs.Prelude.{◌≡◌, false, List, [], ◌∷◌, ◌++◌, map, ◌+◌, ◌≤◌, ◌<◌};
ghost use Rattle.exponents.specs.Outcome.{tested, each};
ghost use Rattle.units.specs.declared.Factor.{Factor as Factorᵛ};
ghost use Rattle.units.specs.Lists as spec;
ghost use Rattle.units.specs.Lists.{no_factor, list_of, pack, made_of, factor_fault, some, unknown, checked, both};

use super::{Factor, Factors, Prefix};
use exponents::Exponent;
use exponents::refusals::Refusal;

// ---- what a given list must be

// Whether a factor's prefix or exponent breaks its rule.
#[tactic(auto, unfolding(crate::specs::Lists::factor_fault))]
pub fn factor_fault(f: Factor) -> bool
    ensures { result ≡ factor_fault f }
{
    super::prefixes::prefix_fault(f.prefix) | exponents::faulty(f.exponent)
}

// Whether a factor names a row that isn't there.
fn is_unknown(rows: usize, f: Factor) -> bool
    ensures { result ≡ unknown rows f }
{
    rows <= f.row as usize
}

// Whether some factor breaks its rule, or names a row that isn't there.
fn any_fault(factors: &[Factor]) -> bool
    ensures { result ≡ some factor_fault factors.now }
{
    factors.iter().any(|f| factor_fault(*f))
}

fn any_unknown(rows: usize, factors: &[Factor]) -> bool
    ensures { result ≡ some (unknown rows) factors.now }
{
    factors.iter().any(|f| is_unknown(rows, *f))
}

// What a list given with so many rows is refused for: SHAPE of all of it, then UNKNOWN.
#[tactic(auto, unfolding(crate::specs::Lists::checked, exponents::specs::Outcome::unless))]
pub fn check_list(rows: usize, l: Factors) -> Result<(), Refusal>
    ensures { result ≡ tested (checked rows l) }
{
    if 16 < l.len || any_fault(&l.at[..l.len]) {
        return Err(Refusal::Shape);
    }
    if any_unknown(rows, &l.at[..l.len]) {
        return Err(Refusal::Unknown);
    }
    Ok(())
}

// The same of two lists, the first before the second.
#[tactic(auto, using(crate::proofs::Checked::both_tested), unfolding(exponents::specs::Outcome::bind))]
pub fn check_pair(rows: usize, a: Factors, b: Factors) -> Result<(), Refusal>
    ensures { result ≡ tested (both rows a b) }
{
    check_list(rows, a)?;
    check_list(rows, b)
}

// ---- lists made

// What stands past the end of a list.
pub fn no_factor() -> Factor
    ensures { result ≡ no_factor }
{
    Factor {
        row: 0,
        prefix: Prefix::Metric(0),
        exponent: Exponent { num: 0, den: 1 },
    }
}

#[tactic(auto, unfolding(crate::specs::Lists::pack))]
pub fn empty() -> Factors
    ensures { result ≡ pack [] }
{
    Factors {
        at: [no_factor(); 16],
        len: 0,
    }
}

// One factor more at the end of a list with a clean tail.
#[tactic(auto, using(crate::proofs::Laws::pushed))]
pub fn push(mut l: Factors, f: Factor) -> Factors
    requires { l.len < 16 }
    ensures { (fs : List Factorᵛ) → l ≡ pack fs → result ≡ pack (fs ++ (f ∷ [])) }
{
    let len = l.len;
    l.at[len] = f;
    l.len = len + 1;
    l
}

// The factors of `b` after those of `out`, a list with a clean tail.
pub fn append(mut out: Factors, b: Factors) -> Factors
    requires { out.len + b.len ≤ 16 }
    ensures { (fs : List Factorᵛ) → out ≡ pack fs → result ≡ pack (fs ++ list_of b) }
{
    let start = out.len;
    let len = start + b.len;
    out.at[start..len].copy_from_slice(&b.at[..b.len]);
    out.len = len;
    out
}

// The same row and prefix with another exponent.
#[tactic(auto, unfolding(crate::specs::Lists::with_exponent))]
fn with_exponent(f: Factor, e: Exponent) -> Factor
    ensures { result ≡ spec.with_exponent f e }
{
    Factor { exponent: e, ..f }
}

// ---- product and quotient

// The lists joined, unmerged, or ROOM.
#[tactic(auto, using(crate::proofs::Checked::no_room, crate::proofs::Checked::room, crate::proofs::Laws::listed, crate::proofs::Laws::len_pack))]
fn joined(a: Factors, b: Factors) -> Result<Factors, Refusal>
    requires { (a.len ≤ 16) × (b.len ≤ 16) }
    ensures { result ≡ made_of (spec.joined (list_of a) (list_of b)) }
{
    if 16 < a.len + b.len {
        return Err(Refusal::Room);
    }
    Ok(append(append(empty(), a), b))
}

// The exponent negated. An exponent that keeps its rule has a negative in range.
#[tactic(auto, using(crate::proofs::Sound::inverted_by, crate::proofs::Sound::never_refused))]
pub fn inverted(f: Factor) -> Factor
    requires { factor_fault f ≡ false }
    ensures { result ≡ spec.inverted f }
{
    match exponents::negated(f.exponent) {
        Ok(x) => with_exponent(f, x),
        Err(_) => f,
    }
}

// A checked list with its exponents negated.
#[tactic(auto, using(crate::proofs::Laws::none_in, crate::proofs::Laws::listed, crate::proofs::Laws::padded_none, crate::proofs::Laws::mapped_more, crate::proofs::Laws::mapped_end))]
pub fn inverse(l: Factors) -> Factors
    requires { (l.len ≤ 16) × (some factor_fault (list_of l) ≡ false) }
    ensures { result ≡ pack (map spec.inverted (list_of l)) }
{
    let mut o = empty();
    for i in 0..l.len {
        o.at[i] = inverted(l.at[i]);
    }
    o.len = l.len;
    o
}

#[tactic(auto, using(crate::proofs::Checked::both_then, crate::proofs::Checked::first_passed, crate::proofs::Checked::second_passed, crate::proofs::Checked::short), unfolding(crate::specs::Lists::product, exponents::specs::Outcome::bind))]
pub fn product(rows: usize, a: Factors, b: Factors) -> Result<Factors, Refusal>
    ensures { result ≡ made_of (spec.product rows a b) }
{
    check_pair(rows, a, b)?;
    joined(a, b)
}

#[tactic(auto, using(crate::proofs::Checked::both_then, crate::proofs::Checked::first_passed, crate::proofs::Checked::second_passed, crate::proofs::Checked::short, crate::proofs::Checked::no_fault, crate::proofs::Laws::mapped_list), unfolding(crate::specs::Lists::quotient, exponents::specs::Outcome::bind))]
pub fn quotient(rows: usize, a: Factors, b: Factors) -> Result<Factors, Refusal>
    ensures { result ≡ made_of (spec.quotient rows a b) }
{
    check_pair(rows, a, b)?;
    joined(a, inverse(b))
}

// ---- power

// A factor with its exponent multiplied.
#[tactic(auto, unfolding(crate::specs::Lists::raised))]
fn power_of(e: Exponent, f: Factor) -> Result<Factor, Refusal>
    ensures { result ≡ spec.raised e f }
{
    let x = exponents::product(f.exponent, e)?;
    Ok(with_exponent(f, x))
}

// Each exponent of a list multiplied; the first refusal is the answer.
#[tactic(auto, using(crate::proofs::Powers::upto_none, crate::proofs::Powers::upto_more, crate::proofs::Laws::listed, exponents::proofs::Taking::take_step_of), unfolding(exponents::specs::Outcome::each, exponents::specs::Outcome::bind))]
pub fn each_power(e: Exponent, l: Factors) -> Result<Factors, Refusal>
    requires { l.len ≤ 16 }
    ensures { result ≡ made_of (each (spec.raised e) (list_of l)) }
{
    let mut o = empty();
    for i in 0..l.len {
        o.at[i] = power_of(e, l.at[i])?;
    }
    o.len = l.len;
    Ok(o)
}

#[tactic(auto, using(crate::proofs::Checked::checked_then, crate::proofs::Checked::short), unfolding(crate::specs::Lists::list_power, exponents::specs::Outcome::bind, exponents::specs::Outcome::unless))]
pub fn list_power(rows: usize, a: Factors, e: Exponent) -> Result<Factors, Refusal>
    ensures { result ≡ made_of (spec.list_power rows a e) }
{
    check_list(rows, a)?;
    if exponents::faulty(e) {
        return Err(Refusal::Shape);
    }
    each_power(e, a)
}
