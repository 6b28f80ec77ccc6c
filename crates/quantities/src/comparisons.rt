// Equality and order of quantities (01, "Conversion, sums, comparison"): the second is converted to the first's list.
// Kept: calls alike but for the call they pass on to: each has its name in 01 or 02 and a contract over its own definition.
ghost use Rattle.std.specs.Prelude.{◌≡◌};
ghost use Rattle.units.specs.declared.Rows.{Rows as Rowsᵛ};
ghost use Rattle.lists.specs.Held.{OpensIn};
ghost use Rattle.quantities.specs.Comparisons as comparisons;
ghost use Rattle.quantities.specs.Comparisons.{equal_to, compared_of};
ghost use Rattle.quantities.specs.Calls as spec;

use exponents::refusals::Refusal;
use lists::opening::Opened;
use std::cmp::Ordering;
use tables::pages::{Bases, Columns};
use units::{Quantity, Rows};

// Whether x is the converted value; UNITS is a no, and so is a NaN.
#[tactic(auto, unfolding(crate::specs::Comparisons::equal_to))]
fn is_equal(x: f64, c: Result<f64, Refusal>) -> Result<bool, Refusal>
    ensures { result ≡ equal_to x c }
{
    match c {
        Ok(y) => Ok(x == y),
        Err(Refusal::Units) => Ok(false),
        Err(r) => Err(r),
    }
}

// Over the opened table and lists.
pub fn equal_over(
    o: Result<Opened, Refusal>,
    q: Quantity,
    p: Quantity,
    bases: Bases,
) -> Result<bool, Refusal>
    ensures { (rows : Rowsᵛ) → OpensIn rows q.unit p.unit o bases.entry → result ≡ spec.equal rows q p }
{
    let o = o?;
    let c = conversion::convert::convert(p.value, o.b, o.a, o.slots.len, bases);
    is_equal(q.value, c)
}

pub fn equal(rows: Rows, q: Quantity, p: Quantity) -> Result<bool, Refusal>
    ensures { result ≡ spec.equal rows q p }
{
    let mut columns = Columns::zeros();
    let o = lists::opening::open_lists(rows, q.unit, p.unit, &mut columns);
    equal_over(
        o,
        q,
        p,
        Bases {
            nums: &columns.nums,
            dens: &columns.dens,
        },
    )
}

// The order of two values; NAN where one is a NaN.
#[tactic(auto, unfolding(crate::specs::Comparisons::ordered, exponents::specs::Outcome::unless))]
fn ordered(x: f64, y: f64) -> Result<Ordering, Refusal>
    ensures { result ≡ compared_of (comparisons.ordered x y) }
{
    if floats::is_nan(x) | floats::is_nan(y) {
        return Err(Refusal::Nan);
    }
    if x < y {
        return Ok(Ordering::Less);
    }
    Ok(if x == y {
        Ordering::Equal
    } else {
        Ordering::Greater
    })
}

// `partial_cmp_preserve_nan`, over the opened table and lists.
pub fn compare_over(
    o: Result<Opened, Refusal>,
    q: Quantity,
    p: Quantity,
    bases: Bases,
) -> Result<Ordering, Refusal>
    ensures { (rows : Rowsᵛ) → OpensIn rows q.unit p.unit o bases.entry → result ≡ compared_of (spec.compare rows q p) }
{
    let o = o?;
    if floats::is_nan(q.value) | floats::is_nan(p.value) {
        return Err(Refusal::Nan);
    }
    let y = conversion::convert::convert(p.value, o.b, o.a, o.slots.len, bases)?;
    ordered(q.value, y)
}

// `partial_cmp_preserve_nan`
pub fn compare(rows: Rows, q: Quantity, p: Quantity) -> Result<Ordering, Refusal>
    ensures { result ≡ compared_of (spec.compare rows q p) }
{
    let mut columns = Columns::zeros();
    let o = lists::opening::open_lists(rows, q.unit, p.unit, &mut columns);
    compare_over(
        o,
        q,
        p,
        Bases {
            nums: &columns.nums,
            dens: &columns.dens,
        },
    )
}
