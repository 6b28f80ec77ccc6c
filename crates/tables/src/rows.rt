// One row worked out over the rows that its definition names (01, "Records and sizes", "Powers and scales").
ghost use Rattle.std.specs.Prelude.{◌≡◌, false, not, List, map, ◌<◌, ◌≤◌, ltb, length};
ghost use Rattle.exponents.specs.Outcome.{bind};
ghost use Rattle.exponents.specs.Fractions.{add?, mul?, faulty as isFaulty};
ghost use Rattle.units.specs.Lists.{some, factor_fault};
ghost use Rattle.tables.specs.Lists.{base_at, base};
ghost use Rattle.tables.specs.Rows.{Facts, exp_at, def_of, bases, scale_at, worked_out, self_exp};
ghost use Rattle.tables.specs.Held.{exps_of, worked_of, pack_slots, pack_exps, row_derived, Reaching, Filed, Sized};
ghost use Rattle.tables.specs.declared.Slot.{Slot as Slotᵛ};
ghost use Rattle.tables.specs.Scale.{doubles, scale, size_by};

use super::pages::{Bases, Columns};
use super::{Known, Slot, Slots, pages};
use exponents::Exponent;
use exponents::refusals::Refusal;
use units::{Factor, Kind, Row};

// The exponent of nothing.
const ZERO: Exponent = Exponent { num: 0, den: 1 };

// A row's facts as they are. A call's result has its arrays' lengths, which an element of an array has not.
pub fn taken(k: Known) -> Known
    ensures { result ≡ k }
{
    k
}

// acc + e d.
#[tactic(auto, unfolding(exponents::specs::Outcome::bind))]
fn plus_term(acc: Exponent, e: Exponent, d: Exponent) -> Result<Exponent, Refusal>
    ensures { result ≡ bind (mul? e d) (λ t. add? acc t) }
{
    let t = exponents::product(e, d)?;
    exponents::sum(acc, t)
}

// The same where e and acc keep their rule: most d are zero, and cost nothing.
#[tactic(auto, using(crate::proofs::Terms::term_skip))]
pub fn with_term(acc: Exponent, e: Exponent, d: Exponent) -> Result<Exponent, Refusal>
    ensures { isFaulty e ≡ false → isFaulty acc ≡ false → result ≡ bind (mul? e d) (λ t. add? acc t) }
{
    if exponents::same(d, ZERO) {
        return Ok(acc);
    }
    plus_term(acc, e, d)
}

// The exponent of a checked definition at the base row of place s.
#[tactic(auto, using(crate::proofs::Terms::named_at, crate::proofs::Terms::inner_end))]
fn exponent_in(def: &[Factor], lent: Bases, s: usize) -> Result<Exponent, Refusal>
    requires { (s < 16) × (some factor_fault def.now ≡ false) × (some (λ f. not (ltb f.row 128)) def.now ≡ false) × (length lent.nums.now ≡ 2048) × (length lent.dens.now ≡ 2048) }
    ensures { (ks : List Facts) → Reaching ks def.now → Filed ks lent.entry.nums.now lent.entry.dens.now → result ≡ base_at def.now (exp_at ks s) }
{
    let mut acc = ZERO;
    for f in def {
        let d = pages::exponent_at(lent, (f.row as usize) * 16 + s);
        acc = with_term(acc, f.exponent, d)?;
    }
    Ok(acc)
}

// Its base exponents at the first n base rows.
#[tactic(auto, using(crate::proofs::Terms::exping_end))]
fn exps_of(def: &[Factor], lent: Bases, n: usize) -> Result<[Exponent; 16], Refusal>
    requires { (n ≤ 16) × (some factor_fault def.now ≡ false) × (some (λ f. not (ltb f.row 128)) def.now ≡ false) × (length lent.nums.now ≡ 2048) × (length lent.dens.now ≡ 2048) }
    ensures { (ks : List Facts) → Reaching ks def.now → Filed ks lent.entry.nums.now lent.entry.dens.now → result ≡ exps_of (base (bases n ks) def.now) }
{
    let mut out = [ZERO; 16];
    for s in 0..n {
        out[s] = exponent_in(def, lent, s)?;
    }
    Ok(out)
}

// The scale of a definition.
#[tactic(auto, using(crate::proofs::Scaling::factors_end))]
fn scale_of(def: &[Factor], scales: &[f64]) -> Result<f64, Refusal>
    requires { (some (λ f. not (ltb f.row 128)) def.now ≡ false) × (length scales.now ≡ 128) }
    ensures { (ks : List Facts) → Reaching ks def.now → Sized ks scales.now → result ≡ scale doubles (size_by (scale_at ks)) def.now }
{
    let mut acc = 1.0;
    for f in def {
        let size = units::prefixes::factor_of(f.prefix) * scales[f.row as usize];
        let p = super::scales::raised(size, f.exponent)?;
        acc = acc * p;
    }
    Ok(acc)
}

// Whether some factor of a definition breaks its rule.
#[tactic(auto, using(exponents::proofs::Taking::drop_step_of, exponents::proofs::Taking::drop_end_of), unfolding(units::specs::Lists::some))]
pub fn def_fault(row: Row) -> bool
    requires { row.len ≤ 8 }
    ensures { result ≡ some factor_fault (def_of row) }
{
    for f in &row.def[..row.len] {
        if units::lists::factor_fault(*f) {
            return true;
        }
    }
    false
}

// 1 where the slot is row i's own, 0 elsewhere.
#[tactic(auto, using(crate::proofs::Working::self_own, crate::proofs::Working::self_other))]
fn own_exponent(s: Slot, i: usize) -> Exponent
    ensures { result ≡ self_exp i s }
{
    if (s.row as usize) == i {
        Exponent { num: 1, den: 1 }
    } else {
        ZERO
    }
}

// The base exponents of a base row: 1 at itself.
#[tactic(auto, using(crate::proofs::Working::own_end, crate::proofs::Placing::len_slots))]
fn own_exps(slots: Slots, i: usize) -> [Exponent; 16]
    requires { slots.len ≤ 16 }
    ensures { (ss : List Slotᵛ) → slots ≡ pack_slots ss → result ≡ pack_exps (map (self_exp i) ss) }
{
    let mut out = [ZERO; 16];
    for s in 0..slots.len {
        out[s] = own_exponent(slots.at[s], i);
    }
    out
}

// A derived row: RANGE or DENOMINATOR of its base exponents, DENOMINATOR of its key, then FRACTION.
#[tactic(auto, using(crate::proofs::Working::no_scale, crate::proofs::Working::all_three, crate::proofs::Working::no_key, crate::proofs::Working::no_base))]
fn derived_row(row: Row, columns: &Columns, n: usize, factor: f64) -> Result<Known, Refusal>
    requires { (row.len ≤ 8) × (n ≤ 16) × (some factor_fault (def_of row) ≡ false) × (some (λ f. not (ltb f.row 128)) (def_of row) ≡ false) }
    ensures { (ks : List Facts) → Reaching ks (def_of row) → Filed ks columns.now.nums columns.now.dens → Sized ks columns.now.scales → result ≡ worked_of (row_derived n ks row factor) }
{
    let def = &row.def[..row.len];
    let exps = exps_of(
        def,
        Bases {
            nums: &columns.nums,
            dens: &columns.dens,
        },
        n,
    )?;
    keys::making::check_key(exps)?;
    let s = scale_of(def, &columns.scales)?;
    Ok(Known {
        exps,
        scale: factor * s,
        rank: row.rank,
        base: false,
    })
}

// A row whose table rules are kept and whose definition is checked.
#[tactic(auto, using(crate::proofs::Working::base_is, crate::proofs::Working::derived_is))]
pub fn work_out(row: Row, columns: &Columns, slots: Slots, i: usize) -> Result<Known, Refusal>
    requires { (row.len ≤ 8) × (slots.len ≤ 16) × (some factor_fault (def_of row) ≡ false) × (some (λ f. not (ltb f.row 128)) (def_of row) ≡ false) }
    ensures { (ss : List Slotᵛ) (ks : List Facts) → slots ≡ pack_slots ss → i ≡ length ks → Reaching ks (def_of row) → Filed ks columns.now.nums columns.now.dens → Sized ks columns.now.scales → result ≡ worked_of (worked_out ss ks row) }
{
    let k = row.kind;
    match k {
        Kind::Base => Ok(Known {
            exps: own_exps(slots, i),
            scale: 1.0,
            rank: row.rank,
            base: true,
        }),
        Kind::Derived(f) => derived_row(row, columns, slots.len, f),
    }
}
