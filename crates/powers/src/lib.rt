// Powers of quantities (01, "The refusals", "Powers and scales", last sentence of "Canonical form").
// Public: `checked_power`, and its half `checked_power_over` for a table and lists that are opened already. Neither asks anything of its caller.
// Kept: calls alike but for the call they pass on to: each has its name in 01 or 02 and a contract over its own definition.
#![tactic(auto)]

ghost use Rattle.std.specs.Prelude.{◌≡◌, ◌≤◌};
ghost use Rattle.units.specs.declared.Rows.{Rows as Rowsᵛ};
ghost use Rattle.units.specs.Lists.{list_of};
ghost use Rattle.lists.specs.Held.{OpensIn};
ghost use Rattle.powers.specs.Powers as powers;
ghost use Rattle.powers.specs.Calls as spec;

use exponents::Exponent;
use exponents::refusals::Refusal;
use lists::opening::Opened;
use tables::pages::{Bases, Columns};
use units::{Factors, Quantity, Rows};
use values::answers;

pub mod whole; // a value as a whole exponent

// A value and its list to the power x, once x is a scalar: ZERONEG, NONWHOLE, RANGE.
#[tactic(auto, unfolding(crate::specs::Powers::raised_to, exponents::specs::Outcome::bind, exponents::specs::Outcome::unless), using(values::proofs::Answered::made_refused, values::proofs::Answered::made_kept))]
fn raised_to(value: f64, l: Factors, x: f64) -> Result<Quantity, Refusal>
    requires { l.len ≤ 16 }
    ensures { result ≡ powers.raised_to value (list_of l) x }
{
    if floats::is_zero(value) & (x < 0.0) {
        return Err(Refusal::ZeroNeg);
    }
    let n = whole::whole_exponent(x)?;
    let u = units::lists::each_power(Exponent { num: n, den: 1 }, l)?;
    Ok(answers::with_mark(floats::power(value, n), u, true))
}

// The exponent is a quantity: it is converted to the empty list first. Over the opened table and lists.
pub fn checked_power_over(
    o: Result<Opened, Refusal>,
    q: Quantity,
    p: Quantity,
    bases: Bases,
) -> Result<Quantity, Refusal>
    ensures { (rows : Rowsᵛ) → OpensIn rows q.unit p.unit o bases.entry → result ≡ spec.checked_power rows q p }
{
    let o = o?;
    let scalar = tables::no_items();
    let x = conversion::convert::convert(p.value, o.b, scalar, o.slots.len, bases)?;
    let l = lists::opening::factors_of(o.a);
    // no opened list is longer
    if 16 < l.len {
        return Err(Refusal::Shape);
    }
    raised_to(q.value, l, x)
}

pub fn checked_power(rows: Rows, q: Quantity, p: Quantity) -> Result<Quantity, Refusal>
    ensures { result ≡ spec.checked_power rows q p }
{
    let mut columns = Columns::zeros();
    let o = lists::opening::open_lists(rows, q.unit, p.unit, &mut columns);
    checked_power_over(
        o,
        q,
        p,
        Bases {
            nums: &columns.nums,
            dens: &columns.dens,
        },
    )
}
