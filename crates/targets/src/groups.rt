// Factors grouped by key, and a group's target (01, "Simplification", third step).
ghost use Rattle.std.specs.Prelude.{◌≡◌, List, ◌∷◌, ◌++◌, ℕ, ◌+◌, ◌≤◌, ◌<◌, length, drop, get_or};
ghost use Rattle.units.specs.declared.Factor.{Factor as Factorᵛ};
ghost use Rattle.tables.specs.Held.{View, item_of, pack_items, Resolved, LendsIn, rules_by};
ghost use Rattle.canonical.specs.Held.{form_of};
ghost use Rattle.targets.specs.Held.{first_told, leading, with_share};
ghost use Rattle.targets.specs.Groups as spec;
ghost use Rattle.targets.specs.Groups.{greatest};

use exponents::Exponent;
use exponents::refusals::Refusal;
use reduction::bases;
use tables::pages::Bases;
use tables::{Item, Items};

// ---- groups

// The group that starts at place i: rows of one class stand together.
pub fn group_at(c: Items, i: usize) -> Items
    requires { i < 16 }
    ensures { ((0 < result.len) × (result.len ≤ 16)) × ((v : View) (fs : List Factorᵛ) → Resolved v c fs → i < length fs → result ≡ pack_items v (leading v.alike (drop i fs))) }
{
    let mut g = super::single::alone(c.at[i]);
    for j in i + 1..bases::capped(c.len) {
        let y = c.at[j - 1];
        let z = c.at[j];
        if y.class != z.class {
            return g;
        }
        let k = j - i;
        g.at[k] = z;
        g.len = k + 1;
    }
    g
}

// The items of l and then m, as far as there is room.
pub fn joined(l: Items, m: Items) -> Items
    ensures { (v : View) (fs gs : List Factorᵛ) → Resolved v l fs → Resolved v m gs → length fs + length gs ≤ 16 → result ≡ pack_items v (fs ++ gs) }
{
    let mut o = l;
    for i in 0..bases::capped(m.len) {
        let k = o.len;
        if k < 16 {
            o.at[k] = m.at[i];
            o.len = k + 1;
        }
    }
    o
}

// ---- the representative

// Whether x is greater than y: base before derived, then by the exponent.
#[tactic(auto, unfolding(crate::specs::Groups::above))]
fn above(x: Item, y: Item) -> bool
    ensures { (v : View) (f g : Factorᵛ) → x ≡ item_of v f → y ≡ item_of v g → result ≡ spec.above v.base f g }
{
    let f = x.factor;
    let g = y.factor;
    let a = f.exponent;
    let b = g.exponent;
    if x.base {
        return !y.base | exponents::less(b, a);
    }
    !y.base & exponents::less(b, a)
}

// The place of the greatest item, the last on a tie.
fn representative(l: Items) -> usize
    ensures { (result < 16) × ((v : View) (f : Factorᵛ) (fs : List Factorᵛ) → l ≡ pack_items v (f ∷ fs) → length fs < 16 → (result < length (f ∷ fs)) × (get_or (f ∷ fs) result f ≡ greatest v.base f fs)) }
{
    let mut r: usize = 0;
    for i in 1..bases::capped(l.len) {
        if !above(l.at[r], l.at[i]) {
            r = i;
        }
    }
    r
}

// ---- the target

// A row's first base exponent other than zero, 1 where it has none.
fn first_exponent(bases: Bases, row: u32) -> Exponent
    ensures { result ≡ first_told bases.entry.nums.now bases.entry.dens.now row }
{
    for i in 0..16 {
        let x = tables::pages::exponent_of(bases, row, i);
        if x.num != 0 {
            return x;
        }
    }
    Exponent { num: 1, den: 1 }
}

// acc and what an item has in a representative whose first base exponent is d: product tested, then quotient, then the sum.
fn with_share(acc: Exponent, it: Item, d: Exponent, bases: Bases) -> Result<Exponent, Refusal>
    ensures { (v : View) (n : ℕ) (f : Factorᵛ) → LendsIn v n bases.entry → it ≡ item_of v f → result ≡ with_share (rules_by v n).lead d acc f }
{
    let f = it.factor;
    let p = exponents::product(f.exponent, first_exponent(bases, f.row))?;
    let q = exponents::quotient(p, d)?;
    exponents::sum(acc, q)
}

// The summed exponents, from 0.
fn summed(l: Items, d: Exponent, bases: Bases) -> Result<Exponent, Refusal>
    ensures { (v : View) (n : ℕ) (fs : List Factorᵛ) → LendsIn v n bases.entry → Resolved v l fs → result ≡ spec.summed (rules_by v n).lead d fs }
{
    let mut acc = Exponent { num: 0, den: 1 };
    for i in 0..bases::capped(l.len) {
        acc = with_share(acc, l.at[i], d, bases)?;
    }
    Ok(acc)
}

// The target of a group, where there are n base rows: the scalar, or its representative with the summed exponents.
pub fn target_of(l: Items, n: usize, bases: Bases) -> Result<Items, Refusal>
    ensures { (v : View) (fs : List Factorᵛ) → LendsIn v n bases.entry → Resolved v l fs → result ≡ form_of v (spec.target (rules_by v n) fs) }
{
    let x = bases::base_of(l, n, bases)?;
    if bases::all_zero(x) {
        return Ok(tables::no_items());
    }
    let p = representative(l);
    let it = l.at[p];
    let f = it.factor;
    let d = first_exponent(bases, f.row);
    let t = summed(l, d, bases)?;
    let y = super::at_exponent(it, t);
    Ok(super::single::alone(y))
}
