// Sum and difference of quantities (01, "Conversion, sums, comparison"): zeros before units are looked at; else both in the unit of the smaller scale.
// Public: `add`, `subtract`, and their halves `.._over` for a table and lists that are opened already. None asks anything of its caller.
// Kept: calls alike but for the call they pass on to: each has its name in 01 or 02 and a contract over its own definition.
#![tactic(auto)]

ghost use Rattle.std.specs.Prelude.{◌≡◌, List};
ghost use Rattle.units.specs.declared.Factor.{Factor as Factorᵛ};
ghost use Rattle.units.specs.declared.Rows.{Rows as Rowsᵛ};
ghost use Rattle.tables.specs.Held.{View, Resolved, LendsIn, rules_by};
ghost use Rattle.lists.specs.Held.{OpensIn};
ghost use Rattle.sums.specs.Sums as sums;
ghost use Rattle.sums.specs.Calls as spec;

use exponents::refusals::Refusal;
use lists::opening::Opened;
use reduction::reduce::Smaller;
use tables::Items;
use tables::pages::{Bases, Columns};
use units::{Quantity, Rows};
use values::answers;

// x + y, or x - y.
// Kept: 01 states both sums as one; the flag is its definition's.
fn combined(minus: bool, x: f64, y: f64) -> f64
    ensures { result ≡ sums.combined minus x y }
{
    if minus { x - y } else { x + y }
}

// x of the list a and y of the list b, both converted to the list u.
#[tactic(auto, unfolding(crate::specs::Sums::together, exponents::specs::Outcome::bind))]
fn together(
    minus: bool,
    x: f64,
    y: f64,
    a: Items,
    b: Items,
    u: Items,
    n: usize,
    bases: Bases,
) -> Result<Quantity, Refusal>
    ensures { (v : View) (fs gs hs : List Factorᵛ) → LendsIn v n bases.entry → Resolved v a fs → Resolved v b gs → Resolved v u hs → result ≡ sums.together (rules_by v n) minus x y fs gs hs }
{
    let p = conversion::convert::convert(x, a, u, n, bases)?;
    let q = conversion::convert::convert(y, b, u, n, bases)?;
    let l = lists::opening::factors_of(u);
    Ok(answers::with_mark(combined(minus, p, q), l, true))
}

// The same where neither value is zero: equal lists add their values; else the unit of the smaller scale is taken.
#[tactic(auto, using(crate::proofs::Adding::chosen_then), unfolding(crate::specs::Sums::nonzero_sum, exponents::specs::Outcome::bind))]
fn nonzero_sum(
    minus: bool,
    x: f64,
    y: f64,
    a: Items,
    b: Items,
    n: usize,
    bases: Bases,
) -> Result<Quantity, Refusal>
    ensures { (v : View) (fs gs : List Factorᵛ) → LendsIn v n bases.entry → Resolved v a fs → Resolved v b gs → result ≡ sums.nonzero_sum (rules_by v n) minus x y fs gs }
{
    let same = canonical::equality::equal(a, b)?;
    if same {
        let l = lists::opening::factors_of(a);
        return Ok(answers::with_mark(combined(minus, x, y), l, true));
    }
    let smaller = reduction::reduce::smaller_unit(a, b, n, bases)?;
    match smaller {
        Smaller::First => together(minus, x, y, a, b, a, n, bases),
        Smaller::Second => together(minus, x, y, a, b, b, n, bases),
    }
}

// Over the opened table and lists.
pub fn add_over(
    o: Result<Opened, Refusal>,
    q: Quantity,
    p: Quantity,
    bases: Bases,
) -> Result<Quantity, Refusal>
    ensures { (rows : Rowsᵛ) → OpensIn rows q.unit p.unit o bases.entry → result ≡ spec.add rows q p }
{
    let o = o?;
    if floats::is_zero(q.value) {
        let l = lists::opening::factors_of(o.b);
        return Ok(answers::with_mark(p.value, l, p.mark));
    }
    if floats::is_zero(p.value) {
        let l = lists::opening::factors_of(o.a);
        return Ok(answers::with_mark(q.value, l, q.mark));
    }
    nonzero_sum(false, q.value, p.value, o.a, o.b, o.slots.len, bases)
}

pub fn add(rows: Rows, q: Quantity, p: Quantity) -> Result<Quantity, Refusal>
    ensures { result ≡ spec.add rows q p }
{
    let mut columns = Columns::zeros();
    let o = lists::opening::open_lists(rows, q.unit, p.unit, &mut columns);
    add_over(
        o,
        q,
        p,
        Bases {
            nums: &columns.nums,
            dens: &columns.dens,
        },
    )
}

// Zero minus a quantity is that negated, with a fresh mark. Over the opened table and lists.
pub fn subtract_over(
    o: Result<Opened, Refusal>,
    q: Quantity,
    p: Quantity,
    bases: Bases,
) -> Result<Quantity, Refusal>
    ensures { (rows : Rowsᵛ) → OpensIn rows q.unit p.unit o bases.entry → result ≡ spec.subtract rows q p }
{
    let o = o?;
    if floats::is_zero(q.value) {
        let l = lists::opening::factors_of(o.b);
        return Ok(answers::with_mark(-p.value, l, true));
    }
    if floats::is_zero(p.value) {
        let l = lists::opening::factors_of(o.a);
        return Ok(answers::with_mark(q.value, l, q.mark));
    }
    nonzero_sum(true, q.value, p.value, o.a, o.b, o.slots.len, bases)
}

pub fn subtract(rows: Rows, q: Quantity, p: Quantity) -> Result<Quantity, Refusal>
    ensures { result ≡ spec.subtract rows q p }
{
    let mut columns = Columns::zeros();
    let o = lists::opening::open_lists(rows, q.unit, p.unit, &mut columns);
    subtract_over(
        o,
        q,
        p,
        Bases {
            nums: &columns.nums,
            dens: &columns.dens,
        },
    )
}
