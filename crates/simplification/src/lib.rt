// Simplification of quantities (01, "Simplification"): conversion to scalar, to one factor, by groups.
// Public: `full_simplify`, and its half `full_simplify_over` for a table and a list that are opened already. Neither asks anything of its caller.
// Kept: calls alike but for the call they pass on to: each has its name in 01 or 02 and a contract over its own definition.
#![tactic(auto)]

ghost use Rattle.std.specs.Prelude.{◌≡◌, []};
ghost use Rattle.units.specs.declared.Rows.{Rows as Rowsᵛ};
ghost use Rattle.units.specs.Lists.{pack};
ghost use Rattle.lists.specs.Held.{OpensIn};
ghost use Rattle.simplification.specs.Calls as spec;

use exponents::refusals::Refusal;
use lists::opening::Opened;
use tables::pages::{Bases, Columns};
use units::{Quantity, Rows};
use values::answers;

pub mod steps; // the three steps of a value on a resolved list

// Without the mark: unchanged. Over the opened table and list; the second list is empty.
pub fn full_simplify_over(
    o: Result<Opened, Refusal>,
    q: Quantity,
    bases: Bases,
) -> Result<Quantity, Refusal>
    ensures { (rows : Rowsᵛ) → OpensIn rows q.unit (pack []) o bases.entry → result ≡ spec.full_simplify rows q }
{
    let o = o?;
    if q.mark {
        return steps::simplified(q.value, o.a, o.slots.len, bases);
    }
    let l = lists::opening::factors_of(o.a);
    Ok(answers::with_mark(q.value, l, false))
}

pub fn full_simplify(rows: Rows, q: Quantity) -> Result<Quantity, Refusal>
    ensures { result ≡ spec.full_simplify rows q }
{
    let mut columns = Columns::zeros();
    let none = units::lists::empty();
    let o = lists::opening::open_lists(rows, q.unit, none, &mut columns);
    full_simplify_over(
        o,
        q,
        Bases {
            nums: &columns.nums,
            dens: &columns.dens,
        },
    )
}
