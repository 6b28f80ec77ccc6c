// A value converted from one resolved list to another (01, "Conversion, sums, comparison"; 02, orders 3 and 5): RANGE or DENOMINATOR, then UNITS, then FRACTION.
ghost use Rattle.std.specs.Prelude.{◌≡◌, true, List, ◌++◌, ℕ, ◌≤◌, Float};
ghost use Rattle.exponents.specs.Outcome.{Ok, apply, bind};
ghost use Rattle.floats.specs.Values.{is_zero};
ghost use Rattle.units.specs.declared.Factor.{Factor as Factorᵛ};
ghost use Rattle.floats.specs.Power.{tally};
ghost use Rattle.tables.specs.Rules.{scale_by, counted};
ghost use Rattle.tables.specs.Held.{View, Resolved, LendsIn, rules_by};
ghost use Rattle.conversion.specs.Conversion as spec;
ghost use Rattle.conversion.specs.Held.{ready_if, scaled_by, tallied_by, rated_by, counted_by};
ghost use Rattle.common.specs.Held.{lessen};

use exponents::refusals::Refusal;
use floats::Tally;
use tables::Items;
use tables::pages::Bases;

// ---- the two scales by which any value is converted

// The own scale and the target's, and the multiplications that both took (02, order 5).
#[derive(Clone, Copy, Drop)]
pub struct Scales {
    pub own: f64,
    pub target: f64,
    pub count: u32,
}

// x times the own scale, divided by the target's, with the multiplications that both took.
#[tactic(auto, unfolding(crate::specs::Held::scaled_by))]
fn scaled(s: Scales, x: f64) -> Tally
    ensures { result ≡ scaled_by s x }
{
    Tally {
        value: x * s.own / s.target,
        count: s.count,
    }
}

// The own scale and that of the list t.
fn rescaled(own: Tally, t: Items) -> Result<Scales, Refusal>
    requires { own.count ≤ 3904 }
    ensures { (v : View) (n : ℕ) (fs ts : List Factorᵛ) → scale_by (counted (rules_by v n)) fs ≡ Ok own → Resolved v t ts → (x : Float) → tallied_by result x ≡ spec.rescaled (counted (rules_by v n)) fs ts (tally x 0) }
{
    let target = reduction::bases::counted_scale(1.0, t)?;
    Ok(Scales {
        own: own.value,
        target: target.value,
        count: own.count + target.count,
    })
}

// Between lists that have no factors in common: m is the target's canonical form.
fn apart(l: Items, m: Items, n: usize, bases: Bases) -> Result<Scales, Refusal>
    ensures { (v : View) (fs gs : List Factorᵛ) → LendsIn v n bases.entry → Resolved v l fs → Resolved v m gs → (x : Float) → tallied_by result x ≡ spec.against (counted (rules_by v n)) fs (Ok gs) (tally x 0) }
{
    let p = reduction::bases::base_of(l, n, bases)?;
    let q = reduction::bases::base_of(m, n, bases)?;
    if !reduction::bases::same_exponents(p, q) {
        return Err(Refusal::Units);
    }
    let s = reduction::bases::counted_scale(1.0, l)?;
    rescaled(s, m)
}

// Between lists that differ: c has their common factors, inverted, and m is the target's canonical form. The own list over c is not merged.
fn unlike(l: Items, m: Items, c: Items, n: usize, bases: Bases) -> Result<Scales, Refusal>
    ensures { (v : View) (fs gs cs : List Factorᵛ) → LendsIn v n bases.entry → Resolved v l fs → Resolved v m gs → Resolved v c cs → (x : Float) → tallied_by result x ≡ spec.against (counted (rules_by v n)) (fs ++ cs) (lessen v.order gs cs) (tally x 0) }
{
    let p = reduction::bases::base_exponents(l, c, n, bases)?;
    let u = common::lessened(m, c)?;
    let q = reduction::bases::base_of(u, n, bases)?;
    if !reduction::bases::same_exponents(p, q) {
        return Err(Refusal::Units);
    }
    let s = reduction::bases::scale_of(l, c)?;
    rescaled(s, u)
}

// Between lists that differ: c has their common factors, inverted, and l and m are canonical forms. Both are merged over c.
fn lessening(l: Items, m: Items, c: Items, n: usize, bases: Bases) -> Result<Scales, Refusal>
    ensures { (v : View) (fs gs cs : List Factorᵛ) → LendsIn v n bases.entry → Resolved v l fs → Resolved v m gs → Resolved v c cs → (x : Float) → tallied_by result x ≡ bind (lessen v.order fs cs) (λ own. spec.against (counted (rules_by v n)) own (lessen v.order gs cs) (tally x 0)) }
{
    let own = common::lessened(l, c)?;
    match common::lessened(m, c) {
        Ok(u) => apart(own, u, n, bases),
        Err(r) => {
            // what the own base exponents are refused by comes first
            reduction::bases::base_of(own, n, bases)?;
            Err(r)
        }
    }
}

// ---- a conversion of any value

// What a conversion between two lists makes of a value: of equal lists, the value itself; or, but for a zero, the value by two scales.
#[derive(Clone, Copy, Drop)]
pub enum Rate {
    Same,
    By(Result<Scales, Refusal>),
}

// x converted, with the multiplications that it took: none if it stays as it is.
#[tactic(auto, unfolding(crate::specs::Held::counted_by, crate::specs::Held::any_by, exponents::specs::Outcome::bind))]
pub fn tallied(r: Result<Rate, Refusal>, x: f64) -> Result<Tally, Refusal>
    ensures { result ≡ counted_by r x }
{
    match r? {
        Rate::By(scales) if !floats::is_zero(x) => Ok(scaled(scales?, x)),
        _ => Ok(Tally { value: x, count: 0 }),
    }
}

// x converted.
#[tactic(auto, unfolding(crate::specs::Held::rated_by))]
pub fn rated(r: Result<Rate, Refusal>, x: f64) -> Result<f64, Refusal>
    ensures { result ≡ rated_by r x }
{
    let t = tallied(r, x)?;
    Ok(t.value)
}

// From the list l to the list m, where there are n base rows. If `zero` says so it is for zeros alone. The own list over
// the common factors is merged too if `merging` says so.
// Kept: 01 and order 3 differ in one step; their definition has the flag too.
fn by_rule(
    l: Items,
    m: Items,
    zero: bool,
    merging: bool,
    n: usize,
    bases: Bases,
) -> Result<Rate, Refusal>
    ensures { (v : View) (fs gs : List Factorᵛ) → LendsIn v n bases.entry → Resolved v l fs → Resolved v m gs → (x : Float) → (zero ≡ true → is_zero x ≡ true) → counted_by result x ≡ spec.convert_by (counted (rules_by v n)) (ready_if v.order merging) fs gs (tally x 0) }
{
    let p = canonical::form::canonical(l)?;
    let q = canonical::form::canonical(m)?;
    if zero | canonical::form::same(p, q) {
        return Ok(Rate::Same);
    }
    let c = common::over_common(p, q);
    if merging {
        if c.len == 0 {
            return Ok(Rate::By(apart(p, q, n, bases)));
        }
        return Ok(Rate::By(lessening(p, q, c, n, bases)));
    }
    if c.len == 0 {
        return Ok(Rate::By(apart(l, q, n, bases)));
    }
    Ok(Rate::By(unlike(l, q, c, n, bases)))
}

// x of the list l in the list m, where there are n base rows.
// Kept: four calls by their names in 01 and 02; what they share is `by_rule`.
pub fn convert(x: f64, l: Items, m: Items, n: usize, bases: Bases) -> Result<f64, Refusal>
    ensures { (v : View) (fs gs : List Factorᵛ) → LendsIn v n bases.entry → Resolved v l fs → Resolved v m gs → result ≡ spec.convert (rules_by v n) fs gs x }
{
    let z = floats::is_zero(x);
    rated(by_rule(l, m, z, false, n, bases), x)
}

// The same with factors cancelled on both sides (02, order 3).
pub fn cancelling(x: f64, l: Items, m: Items, n: usize, bases: Bases) -> Result<f64, Refusal>
    ensures { (v : View) (fs gs : List Factorᵛ) → LendsIn v n bases.entry → Resolved v l fs → Resolved v m gs → result ≡ spec.cancelling (rules_by v n) fs gs x }
{
    let z = floats::is_zero(x);
    rated(by_rule(l, m, z, true, n, bases), x)
}

// Either, with the multiplications that it took (02, order 5).
pub fn convert_counted(x: f64, l: Items, m: Items, n: usize, bases: Bases) -> Result<Tally, Refusal>
    ensures { (v : View) (fs gs : List Factorᵛ) → LendsIn v n bases.entry → Resolved v l fs → Resolved v m gs → result ≡ spec.convert (counted (rules_by v n)) fs gs (tally x 0) }
{
    let z = floats::is_zero(x);
    tallied(by_rule(l, m, z, false, n, bases), x)
}

pub fn cancelling_counted(
    x: f64,
    l: Items,
    m: Items,
    n: usize,
    bases: Bases,
) -> Result<Tally, Refusal>
    ensures { (v : View) (fs gs : List Factorᵛ) → LendsIn v n bases.entry → Resolved v l fs → Resolved v m gs → result ≡ spec.cancelling (counted (rules_by v n)) fs gs (tally x 0) }
{
    let z = floats::is_zero(x);
    tallied(by_rule(l, m, z, true, n, bases), x)
}

// That of any value: what is done for the lists is done once.
pub fn cancelling_rate(l: Items, m: Items, n: usize, bases: Bases) -> Result<Rate, Refusal>
    ensures { (v : View) (fs gs : List Factorᵛ) → LendsIn v n bases.entry → Resolved v l fs → Resolved v m gs → (x : Float) → rated_by result x ≡ spec.cancelling (rules_by v n) fs gs x }
{
    by_rule(l, m, false, true, n, bases)
}
