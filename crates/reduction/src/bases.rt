// The base exponents and the scale of a resolved list, or of two joined (01, "Powers and scales"); the scale with the multiplications that it takes (02, order 5).
ghost use Rattle.std.specs.Prelude.{◌≡◌, false, List, [], ◌∷◌, ◌++◌, ℕ, ◌≤◌};
ghost use Rattle.exponents.specs.Fractions.{faulty as isFaulty};
ghost use Rattle.units.specs.declared.Factor.{Factor as Factorᵛ};
ghost use Rattle.tables.specs.Lists.{base};
ghost use Rattle.floats.specs.Power.{tally};
ghost use Rattle.tables.specs.Scale.{doubles, counting, scale_from_lem, scale, size_by, counted_size};
ghost use Rattle.tables.specs.Held.{exps_of, Within, View, view_bases, item_of, Resolved, LendsIn};
ghost use Rattle.canonical.specs.Canonical.{same_all, all_nought};
ghost use Rattle.reduction.specs.Held.{Summed};

use exponents::Exponent;
use exponents::refusals::Refusal;
use floats::Tally;
use tables::pages::Bases;
use tables::{Item, Items};

// n, or 16 where that is more: no list is longer, and no table has more base rows.
pub fn capped(n: usize) -> usize
    ensures { (result ≤ 16) × (n ≤ 16 → result ≡ n) }
{
    n.min(16)
}

// ---- base exponents

// Sums so far, one for each base row before `stop`. Each item is read once, so they grow factor by factor, while 01 goes
// base row by base row: a refusal ends the sums from its base row on, and so the lowest base row that refuses decides.
#[derive(Clone, Copy, Drop)]
pub struct Partial {
    pub at: [Exponent; 16],
    pub stop: usize,
    // why they end before the last base row
    pub refusal: Option<Refusal>,
}

// The sums over no factor at n base rows.
fn none_yet(n: usize) -> Partial
    ensures { (v : View) → n ≤ 16 → Summed v n [] result }
{
    let none = Exponent { num: 0, den: 1 };
    Partial {
        at: [none; 16],
        stop: n,
        refusal: None,
    }
}

// One factor more.
fn with_factor(p: Partial, it: Item, bases: Bases) -> Partial
    ensures { (v : View) (n : ℕ) (fs : List Factorᵛ) (f : Factorᵛ) → LendsIn v n bases.entry → it ≡ item_of v f → isFaulty f.exponent ≡ false → Summed v n fs p → Summed v n (fs ++ (f ∷ [])) result }
{
    let f = it.factor;
    let m = capped(p.stop);
    let mut at = p.at;
    for s in 0..m {
        let d = tables::pages::exponent_of(bases, f.row, s);
        match tables::rows::with_term(at[s], f.exponent, d) {
            Ok(t) => {
                at[s] = t;
            }
            Err(r) => {
                return Partial {
                    at: at,
                    stop: s,
                    refusal: Some(r),
                };
            }
        }
    }
    Partial {
        at: at,
        stop: m,
        refusal: p.refusal,
    }
}

// The factors of a list more.
fn with_list(p: Partial, l: Items, bases: Bases) -> Partial
    ensures { (v : View) (n : ℕ) (fs gs : List Factorᵛ) → LendsIn v n bases.entry → Resolved v l gs → Summed v n fs p → Summed v n (fs ++ gs) result }
{
    let mut o = p;
    for it in &l.at[..capped(l.len)] {
        o = with_factor(o, *it, bases);
    }
    o
}

// The answer for n base rows.
fn finished(p: Partial) -> Result<[Exponent; 16], Refusal>
    ensures { (v : View) (n : ℕ) (fs : List Factorᵛ) → n ≤ 16 → Summed v n fs p → result ≡ exps_of (base (view_bases v n) fs) }
{
    match p.refusal {
        Some(r) => Err(r),
        None => Ok(p.at),
    }
}

// The base exponents of a list at the first n base rows.
pub fn base_of(l: Items, n: usize, bases: Bases) -> Result<[Exponent; 16], Refusal>
    ensures { (v : View) (fs : List Factorᵛ) → LendsIn v n bases.entry → Resolved v l fs → result ≡ exps_of (base (view_bases v n) fs) }
{
    let none = none_yet(n);
    let p = with_list(none, l, bases);
    finished(p)
}

// The base exponents of one factor.
pub fn base_of_item(it: Item, n: usize, bases: Bases) -> Result<[Exponent; 16], Refusal>
    ensures { (v : View) (f : Factorᵛ) → LendsIn v n bases.entry → it ≡ item_of v f → isFaulty f.exponent ≡ false → result ≡ exps_of (base (view_bases v n) (f ∷ [])) }
{
    let none = none_yet(n);
    let p = with_factor(none, it, bases);
    finished(p)
}

// The base exponents of l and then m, joined: a conversion's own list over its common factors is such a pair.
pub fn base_exponents(l: Items, m: Items, n: usize, bases: Bases) -> Result<[Exponent; 16], Refusal>
    ensures { (v : View) (fs gs : List Factorᵛ) → LendsIn v n bases.entry → Resolved v l fs → Resolved v m gs → result ≡ exps_of (base (view_bases v n) (fs ++ gs)) }
{
    let none = none_yet(n);
    let p = with_list(none, l, bases);
    let q = with_list(p, m, bases);
    finished(q)
}

// ---- the scale

// start times the scale of a list, with the multiplications that it took: a factor takes at most 61 for its prefix and 61 for its power.
pub fn counted_scale(start: f64, l: Items) -> Result<Tally, Refusal>
    ensures { Within 1952 result × ((v : View) (fs : List Factorᵛ) → Resolved v l fs → result ≡ scale_from_lem (counting doubles) (counted_size (size_by v.scale)) (tally start 0) fs) }
{
    let mut acc = start;
    let mut count: u32 = 0;
    for it in &l.at[..capped(l.len)] {
        let f = it.factor;
        let g = units::prefixes::counted_factor(f.prefix);
        let t = tables::scales::counted(g.value * it.scale, f.exponent)?;
        acc = acc * t.value;
        count = count + (g.count + t.count);
    }
    Ok(Tally {
        value: acc,
        count: count,
    })
}

// start times the scale of a list.
pub fn scale_from(start: f64, l: Items) -> Result<f64, Refusal>
    ensures { (v : View) (fs : List Factorᵛ) → Resolved v l fs → result ≡ scale_from_lem doubles (size_by v.scale) start fs }
{
    let t = counted_scale(start, l)?;
    Ok(t.value)
}

// The scale of l and then m, joined, with the multiplications that it took.
pub fn scale_of(l: Items, m: Items) -> Result<Tally, Refusal>
    ensures { Within 3904 result × ((v : View) (fs gs : List Factorᵛ) → Resolved v l fs → Resolved v m gs → result ≡ scale (counting doubles) (counted_size (size_by v.scale)) (fs ++ gs)) }
{
    let t = counted_scale(1.0, l)?;
    let u = counted_scale(t.value, m)?;
    Ok(Tally {
        value: u.value,
        count: t.count + u.count,
    })
}

// ---- base exponents compared

pub fn same_exponents(a: [Exponent; 16], b: [Exponent; 16]) -> bool
    ensures { result ≡ same_all a b }
{
    a == b
}

// Whether all are zero, as a scalar's are.
pub fn all_zero(a: [Exponent; 16]) -> bool
    ensures { result ≡ all_nought a }
{
    a.iter()
        .all(|x| exponents::same(*x, Exponent { num: 0, den: 1 }))
}
