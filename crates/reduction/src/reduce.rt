// Reduction, and the smaller of two units (01, "Powers and scales", "The refusals").
ghost use Rattle.std.specs.Prelude.{◌≡◌, List, ◌≤◌, length, take};
ghost use Rattle.units.specs.declared.Factor.{Factor as Factorᵛ};
ghost use Rattle.units.specs.Lists.{pack};
ghost use Rattle.tables.specs.declared.Slot.{Slot as Slotᵛ};
ghost use Rattle.tables.specs.Held.{pack_slots, View, Resolved, LendsIn, rules_by};
ghost use Rattle.reduction.specs.Reduction.{base_factor, reduced, reduction as reductionOf, reduced_scale, smaller_unit, reduced_of};
ghost use Rattle.reduction.specs.Held.{smaller_of};

use exponents::Exponent;
use exponents::refusals::Refusal;
use tables::pages::Bases;
use tables::{Items, Slot, Slots};
use units::{Factor, Factors, Prefix};

// A reduced list and the scale.
#[derive(Clone, Copy, Drop)]
pub struct Reduced {
    pub unit: Factors,
    pub scale: f64,
}

// Which of two units has the smaller scale.
#[derive(Clone, Copy, Drop)]
pub enum Smaller {
    First,
    Second,
}

fn base_factor(s: Slot, e: Exponent) -> Factor
    ensures { result ≡ base_factor s e }
{
    Factor {
        row: s.row,
        prefix: Prefix::Metric(0),
        exponent: e,
    }
}

// The nonzero exponents as base factors in rank order.
pub fn base_factors(slots: Slots, e: [Exponent; 16]) -> Factors
    ensures { slots.len ≤ 16 → result ≡ pack (reduced (take slots.len slots.at) e) }
{
    let none = Exponent { num: 0, den: 1 };
    let mut o = units::lists::empty();
    for i in 0..super::bases::capped(slots.len) {
        let s = slots.at[i];
        let x = e[i];
        if !exponents::same(x, none) {
            let f = base_factor(s, x);
            o = units::lists::push(o, f);
        }
    }
    o
}

// A list reduced: RANGE or DENOMINATOR of its base exponents, then FRACTION of its scale.
pub fn reduce_list(l: Items, slots: Slots, bases: Bases) -> Result<Reduced, Refusal>
    ensures { (v : View) (fs : List Factorᵛ) (ss : List Slotᵛ) → LendsIn v (length ss) bases.entry → Resolved v l fs → slots ≡ pack_slots ss → result ≡ reduced_of (reductionOf (rules_by v (length ss)) ss fs) }
{
    let e = super::bases::base_of(l, slots.len, bases)?;
    let s = super::bases::scale_from(1.0, l)?;
    let u = base_factors(slots, e);
    Ok(Reduced { unit: u, scale: s })
}

// The scale of a list, after RANGE or DENOMINATOR of its base exponents.
#[tactic(auto, unfolding(crate::specs::Reduction::reduced_scale, exponents::specs::Outcome::bind))]
fn reduced_scale(l: Items, n: usize, bases: Bases) -> Result<f64, Refusal>
    ensures { (v : View) (fs : List Factorᵛ) → LendsIn v n bases.entry → Resolved v l fs → result ≡ reduced_scale (rules_by v n) fs }
{
    super::bases::base_of(l, n, bases)?;
    super::bases::scale_from(1.0, l)
}

// The first if its scale is at most the second's, where there are n base rows.
#[tactic(auto, unfolding(crate::specs::Reduction::smaller_unit, exponents::specs::Outcome::bind))]
pub fn smaller_unit(a: Items, b: Items, n: usize, bases: Bases) -> Result<Smaller, Refusal>
    ensures { (v : View) (fs gs : List Factorᵛ) → LendsIn v n bases.entry → Resolved v a fs → Resolved v b gs → result ≡ smaller_of (smaller_unit (rules_by v n) fs gs) }
{
    let s = reduced_scale(a, n, bases)?;
    let t = reduced_scale(b, n, bases)?;
    Ok(if s <= t {
        Smaller::First
    } else {
        Smaller::Second
    })
}
