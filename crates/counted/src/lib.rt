// Conversion of quantities with the multiplications that it takes inside the power rule (02, order 5): `convert_to_counted`, `convert_merged_counted`. Neither asks anything of its caller.
// Each has a half, `.._over`, for a table and lists that are opened already.
// Kept: calls alike but for the call they pass on to: each has its name in 01 or 02 and a contract over its own definition.
#![tactic(auto)]

ghost use Rattle.std.specs.Prelude.{◌≡◌, List};
ghost use Rattle.exponents.specs.Outcome.{apply};
ghost use Rattle.units.specs.declared.Factor.{Factor as Factorᵛ};
ghost use Rattle.units.specs.declared.Factors.{Factors as Factorsᵛ};
ghost use Rattle.units.specs.declared.Rows.{Rows as Rowsᵛ};
ghost use Rattle.tables.specs.Held.{View, Resolved};
ghost use Rattle.lists.specs.Held.{OpensIn};
ghost use Rattle.values.specs.Quantities.{fresh};
ghost use Rattle.counted.specs.Calls as spec;
ghost use Rattle.counted.specs.Calls.{counted_of};

use exponents::refusals::Refusal;
use floats::Tally;
use lists::opening::Opened;
use tables::Items;
use tables::pages::{Bases, Columns};
use units::{Factors, Quantity, Rows};
use values::answers;

// A converted quantity and the multiplications that the conversion took.
#[derive(Clone, Copy, Drop)]
pub struct Counted {
    pub quantity: Quantity,
    pub count: u32,
}

// A converted value in the target list b, with a fresh mark, and what it took; or its refusal.
fn in_target(c: Result<Tally, Refusal>, b: Items) -> Result<Counted, Refusal>
    ensures { (v : View) (gs : List Factorᵛ) → Resolved v b gs → result ≡ counted_of (apply (λ x. (fresh x.value gs, x.count)) c) }
{
    let t = c?;
    let l = lists::opening::factors_of(b);
    Ok(Counted {
        quantity: answers::with_mark(t.value, l, true),
        count: t.count,
    })
}

// Over the opened table and lists.
pub fn convert_to_counted_over(
    o: Result<Opened, Refusal>,
    q: Quantity,
    bases: Bases,
) -> Result<Counted, Refusal>
    ensures { (rows : Rowsᵛ) (target : Factorsᵛ) → OpensIn rows q.unit target o bases.entry → result ≡ counted_of (spec.convert_to_counted rows q target) }
{
    let o = o?;
    let c = conversion::convert::convert_counted(q.value, o.a, o.b, o.slots.len, bases);
    in_target(c, o.b)
}

pub fn convert_to_counted(rows: Rows, q: Quantity, target: Factors) -> Result<Counted, Refusal>
    ensures { result ≡ counted_of (spec.convert_to_counted rows q target) }
{
    let mut columns = Columns::zeros();
    let o = lists::opening::open_lists(rows, q.unit, target, &mut columns);
    convert_to_counted_over(
        o,
        q,
        Bases {
            nums: &columns.nums,
            dens: &columns.dens,
        },
    )
}

// ---- with factors cancelled on both sides (02, order 3)

// Over the opened table and lists.
pub fn convert_merged_counted_over(
    o: Result<Opened, Refusal>,
    q: Quantity,
    bases: Bases,
) -> Result<Counted, Refusal>
    ensures { (rows : Rowsᵛ) (target : Factorsᵛ) → OpensIn rows q.unit target o bases.entry → result ≡ counted_of (spec.convert_merged_counted rows q target) }
{
    let o = o?;
    let c = conversion::convert::cancelling_counted(q.value, o.a, o.b, o.slots.len, bases);
    in_target(c, o.b)
}

pub fn convert_merged_counted(rows: Rows, q: Quantity, target: Factors) -> Result<Counted, Refusal>
    ensures { result ≡ counted_of (spec.convert_merged_counted rows q target) }
{
    let mut columns = Columns::zeros();
    let o = lists::opening::open_lists(rows, q.unit, target, &mut columns);
    convert_merged_counted_over(
        o,
        q,
        Bases {
            nums: &columns.nums,
            dens: &columns.dens,
        },
    )
}
