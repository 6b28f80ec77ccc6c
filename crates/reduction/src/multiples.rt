// `is_multiple_of` (01, "Simplification"): the exponent by which one unit is a power of another, if it is one, by their base exponents alone.
ghost use Rattle.std.specs.Prelude.{◌≡◌, false, List};
ghost use Rattle.exponents.specs.Fractions.{mul?, faulty as isFaulty};
ghost use Rattle.units.specs.declared.Factor.{Factor as Factorᵛ};
ghost use Rattle.tables.specs.Held.{View, view_bases, Resolved, LendsIn};
ghost use Rattle.reduction.specs.Multiple.{first_base, fits as fits_by, multiple_of, is_multiple};

use exponents::Exponent;
use exponents::refusals::Refusal;
use tables::Items;
use tables::pages::Bases;

// The place of the first that isn't zero, 16 where all are.
pub fn first_base(a: [Exponent; 16]) -> usize
    ensures { result ≡ first_base a }
{
    a.iter()
        .position(|x| !exponents::same(*x, Exponent { num: 0, den: 1 }))
        .unwrap_or(16)
}

// y q, where q keeps its rule. A zero y costs nothing.
#[tactic(auto, using(crate::proofs::Fitting::product_skip))]
pub fn multiplied(y: Exponent, q: Exponent) -> Result<Exponent, Refusal>
    ensures { isFaulty q ≡ false → result ≡ mul? y q }
{
    let none = Exponent { num: 0, den: 1 };
    if exponents::same(y, none) {
        return Ok(y);
    }
    exponents::product(y, q)
}

// q, if b's times q are a's. What leaves the range beats none: every product is worked out.
fn fits(a: [Exponent; 16], b: [Exponent; 16], q: Exponent) -> Result<Option<Exponent>, Refusal>
    ensures { isFaulty q ≡ false → result ≡ fits_by a b q }
{
    let mut all = true;
    for i in 0..16 {
        let w = multiplied(b[i], q)?;
        let same = exponents::same(w, a[i]);
        all = all & same;
    }
    Ok(if all { Some(q) } else { None })
}

// The same of a's and b's base exponents.
fn multiple_of(a: [Exponent; 16], b: [Exponent; 16]) -> Result<Option<Exponent>, Refusal>
    ensures { result ≡ multiple_of a b }
{
    if super::bases::same_exponents(a, b) {
        return Ok(Some(Exponent { num: 1, den: 1 }));
    }
    let i = first_base(a);
    if 16 <= i {
        return Ok(None);
    }
    let none = Exponent { num: 0, den: 1 };
    let y = b[i];
    if exponents::same(y, none) {
        return Ok(None);
    }
    let q = exponents::quotient(a[i], y)?;
    fits(a, b, q)
}

// Where there are n base rows: RANGE or DENOMINATOR of a's base exponents, of b's, then of the quotient and the products.
pub fn is_multiple_of(
    a: Items,
    b: Items,
    n: usize,
    bases: Bases,
) -> Result<Option<Exponent>, Refusal>
    ensures { (v : View) (fs gs : List Factorᵛ) → LendsIn v n bases.entry → Resolved v a fs → Resolved v b gs → result ≡ is_multiple (view_bases v n) fs gs }
{
    let x = super::bases::base_of(a, n, bases)?;
    let y = super::bases::base_of(b, n, bases)?;
    multiple_of(x, y)
}
