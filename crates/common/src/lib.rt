// The common factors of two canonical lists, and a canonical list over them (01, "Conversion, sums, comparison").
// Public: `over_common`, `lessened`. Neither asks anything of its caller.
#![tactic(auto)]

ghost use Rattle.std.specs.Prelude.{◌≡◌, ◌≤◌, false, List, map, length};
ghost use Rattle.exponents.specs.Fractions.{faulty as isFaulty};
ghost use Rattle.units.specs.declared.Factor.{Factor as Factorᵛ};
ghost use Rattle.units.specs.Lists as lists;
ghost use Rattle.tables.specs.Held.{View, pack_items, by_place, Resolved};
ghost use Rattle.tables.specs.Order.{atom, of};
ghost use Rattle.canonical.specs.Held.{with_factor, spots, form_of};
ghost use Rattle.common.specs.Common as spec;
ghost use Rattle.common.specs.Common.{common};
ghost use Rattle.common.specs.Held.{lessen, left_of};

use exponents::Exponent;
use exponents::refusals::Refusal;
use std::cmp::Ordering;
use tables::{Item, Items};

// The exponent that two factors of one row and prefix have in common. Both positive: the smaller. Both negative: the larger.
#[tactic(auto, unfolding(crate::specs::Common::meet))]
fn meet(x: Exponent, y: Exponent) -> Option<Exponent>
    ensures { result ≡ spec.meet x y }
{
    let none = Exponent { num: 0, den: 1 };
    let lower = exponents::less(x, y);
    if exponents::less(none, x) & exponents::less(none, y) {
        return if lower { Some(x) } else { Some(y) };
    }
    if exponents::less(x, none) & exponents::less(y, none) {
        return if lower { Some(y) } else { Some(x) };
    }
    None
}

// y to another exponent.
fn with_exponent(y: Item, e: Exponent) -> Item
    ensures { result ≡ with_factor y (of (atom y.factor) e) }
{
    let mut z = y;
    z.factor.exponent = e;
    z
}

// What is known of a row, with its factor to the exponent -e.
#[tactic(auto, using(crate::proofs::Sharing::inverted_item, exponents::proofs::Numbers::always_negated))]
fn inverted_to(x: Item, e: Exponent) -> Item
    ensures { isFaulty e ≡ false → result ≡ with_factor x (lists.inverted (of (atom x.factor) e)) }
{
    match exponents::negated(e) {
        Ok(n) => with_exponent(x, n),
        Err(_) => x,
    }
}

// What the factor of x and a canonical list have in common: they share the exponent of the list's factor of the same row and prefix, if there is one.
fn shared_with(x: Item, m: &Items) -> Option<Exponent>
    ensures { (v : View) (gs : List Factorᵛ) → m.now ≡ pack_items v gs → length gs ≤ 16 → x.place ≡ v.place x.factor.row → result ≡ spec.shared_with_lem (by_place v) x.factor gs }
{
    let f = x.factor;
    for j in 0..reduction::bases::capped(m.len) {
        let y = m.at[j];
        let g = y.factor;
        if canonical::form::compared(x.place, f.prefix, y.place, g.prefix).is_eq() {
            return meet(f.exponent, g.exponent);
        }
    }
    None
}

// The common factors of two canonical lists, their exponents negated: what is joined to a list to have it over them.
pub fn over_common(l: Items, m: Items) -> Items
    ensures { (v : View) (fs gs : List Factorᵛ) → Resolved v l fs → Resolved v m gs → result ≡ pack_items v (map lists.inverted (common v.order fs gs)) }
{
    let mut o = tables::no_items();
    let mut k: usize = 0;
    for i in 0..reduction::bases::capped(l.len) {
        let x = l.at[i];
        if let Some(e) = shared_with(x, &m) {
            o.at[k] = inverted_to(x, e);
            k += 1;
        }
    }
    o.len = k;
    o
}

// ---- a canonical list over the common factors

// What is left of y where x is the next inverted common factor: its exponent, or none where all of it is left.
fn left_of(y: Item, x: Item) -> Result<Option<Exponent>, Refusal>
    ensures { result ≡ left_of (spots x.place x.factor.prefix y.place y.factor.prefix) y.factor x.factor }
{
    let f = x.factor;
    let g = y.factor;
    let p = f.prefix;
    let q = g.prefix;
    match canonical::form::compared(x.place, p, y.place, q) {
        Ordering::Equal => {
            let e = exponents::sum(g.exponent, f.exponent)?;
            Ok(Some(e))
        }
        Ordering::Less => Ok(None),
        Ordering::Greater => Ok(None),
    }
}

// A canonical list m joined with inverted common factors c, which stand in its order: one walk merges them.
pub fn lessened(m: Items, c: Items) -> Result<Items, Refusal>
    ensures { (v : View) (gs cs : List Factorᵛ) → Resolved v m gs → Resolved v c cs → result ≡ form_of v (lessen v.order gs cs) }
{
    let u = reduction::bases::capped(c.len);
    let none = Exponent { num: 0, den: 1 };
    let mut o = tables::no_items();
    let mut k: usize = 0;
    let mut j: usize = 0;
    for i in 0..reduction::bases::capped(m.len) {
        let y = m.at[i];
        let mut left = None;
        if j < u {
            let x = c.at[j];
            left = left_of(y, x)?;
        }
        match left {
            None => {
                o.at[k] = y;
                k += 1;
            }
            Some(e) => {
                if !exponents::same(e, none) {
                    o.at[k] = with_exponent(y, e);
                    k += 1;
                }
                j += 1;
            }
        }
    }
    o.len = k;
    Ok(o)
}
