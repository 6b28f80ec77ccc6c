// A quantity in the units of a list (01, "Conversion, sums, comparison"; 02, order 3).
// Kept: calls alike but for the call they pass on to: each has its name in 01 or 02 and a contract over its own definition.
ghost use Rattle.std.specs.Prelude.{◌≡◌, List, Float};
ghost use Rattle.exponents.specs.Outcome.{Outcome, apply};
ghost use Rattle.units.specs.declared.Factor.{Factor as Factorᵛ};
ghost use Rattle.units.specs.declared.Factors.{Factors as Factorsᵛ};
ghost use Rattle.units.specs.declared.Quantity.{Quantity as Quantityᵛ};
ghost use Rattle.units.specs.declared.Rows.{Rows as Rowsᵛ};
ghost use Rattle.tables.specs.Held.{View, Resolved};
ghost use Rattle.lists.specs.Held.{OpensIn};
ghost use Rattle.conversion.specs.Held.{rated_by};
ghost use Rattle.values.specs.Quantities.{fresh};
ghost use Rattle.quantities.specs.Calls as spec;

use conversion::convert::Rate;
use exponents::refusals::Refusal;
use lists::opening::Opened;
use tables::Items;
use tables::pages::{Bases, Columns};
use units::{Factors, Quantity, Rows};
use values::answers;

// A converted value in the target list b, with a fresh mark; or its refusal.
pub fn in_target(c: Result<f64, Refusal>, b: Items) -> Result<Quantity, Refusal>
    ensures { (v : View) (gs : List Factorᵛ) (o : Outcome Float) → Resolved v b gs → c ≡ o → result ≡ apply (λ x. fresh x gs) o }
{
    let x = c?;
    let l = lists::opening::factors_of(b);
    Ok(answers::with_mark(x, l, true))
}

// Over the opened table and lists.
pub fn convert_to_over(
    o: Result<Opened, Refusal>,
    q: Quantity,
    bases: Bases,
) -> Result<Quantity, Refusal>
    ensures { (rows : Rowsᵛ) (target : Factorsᵛ) → OpensIn rows q.unit target o bases.entry → result ≡ spec.convert_to rows q target }
{
    let o = o?;
    let c = conversion::convert::convert(q.value, o.a, o.b, o.slots.len, bases);
    in_target(c, o.b)
}

pub fn convert_to(rows: Rows, q: Quantity, target: Factors) -> Result<Quantity, Refusal>
    ensures { result ≡ spec.convert_to rows q target }
{
    let mut columns = Columns::zeros();
    let o = lists::opening::open_lists(rows, q.unit, target, &mut columns);
    convert_to_over(
        o,
        q,
        Bases {
            nums: &columns.nums,
            dens: &columns.dens,
        },
    )
}

// ---- with factors cancelled on both sides (02, order 3)

// Over the opened table and lists.
pub fn convert_merged_over(
    o: Result<Opened, Refusal>,
    q: Quantity,
    bases: Bases,
) -> Result<Quantity, Refusal>
    ensures { (rows : Rowsᵛ) (target : Factorsᵛ) → OpensIn rows q.unit target o bases.entry → result ≡ spec.convert_merged rows q target }
{
    let o = o?;
    let c = conversion::convert::cancelling(q.value, o.a, o.b, o.slots.len, bases);
    in_target(c, o.b)
}

// Over the opened table and lists, of any value: what is done for the lists is done once.
pub fn merged_rate_over(o: Result<Opened, Refusal>, bases: Bases) -> Result<Rate, Refusal>
    ensures { (rows : Rowsᵛ) (q : Quantityᵛ) (target : Factorsᵛ) → OpensIn rows q.unit target o bases.entry → rated_by result q.value ≡ spec.merged_value rows q target }
{
    let o = o?;
    conversion::convert::cancelling_rate(o.a, o.b, o.slots.len, bases)
}

pub fn convert_merged(rows: Rows, q: Quantity, target: Factors) -> Result<Quantity, Refusal>
    ensures { result ≡ spec.convert_merged rows q target }
{
    let mut columns = Columns::zeros();
    let o = lists::opening::open_lists(rows, q.unit, target, &mut columns);
    convert_merged_over(
        o,
        q,
        Bases {
            nums: &columns.nums,
            dens: &columns.dens,
        },
    )
}
