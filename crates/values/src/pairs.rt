// Product and quotient of quantities (01, "Conversion, sums, comparison", "The refusals", last sentence of "Canonical form"). `_over`: over a table that is checked.
// Kept: calls alike but for the call they pass on to: each has its name in 01 or 02 and a contract over its own definition.
ghost use Rattle.std.specs.Prelude.{◌≡◌};
ghost use Rattle.units.specs.declared.Rows.{Rows as Rowsᵛ};
ghost use Rattle.tables.specs.Rows.{admit, base_rows};
ghost use Rattle.tables.specs.Held.{admitted_of};
ghost use Rattle.values.specs.Calls as spec;

use super::answers;
use exponents::refusals::Refusal;
use tables::{Admitted, Rejected};
use units::{Quantity, Rows};

#[tactic(auto, unfolding(crate::specs::Calls::multiply), using(crate::proofs::Answered::made_refused, crate::proofs::Answered::made_kept))]
pub fn multiply_over(
    t: Result<Admitted, Rejected>,
    q: Quantity,
    p: Quantity,
) -> Result<Quantity, Refusal>
    ensures { (rows : Rowsᵛ) → t ≡ admitted_of (base_rows rows) (admit rows) → result ≡ spec.multiply rows q p }
{
    let l = lists::joins::product_over(t, q.unit, p.unit)?;
    Ok(answers::with_mark(q.value * p.value, l, true))
}

pub fn multiply(rows: Rows, q: Quantity, p: Quantity) -> Result<Quantity, Refusal>
    ensures { result ≡ spec.multiply rows q p }
{
    let t = lists::opening::admitted(rows);
    multiply_over(t, q, p)
}

// The divisor's value is looked at after both lists, and before their joined length.
#[tactic(auto, unfolding(crate::specs::Calls::checked_div, units::specs::Lists::quotient, exponents::specs::Outcome::bind, exponents::specs::Outcome::unless), using(crate::proofs::Answered::made_refused, crate::proofs::Answered::made_kept, units::proofs::Checked::both_then))]
pub fn checked_div_over(
    t: Result<Admitted, Rejected>,
    q: Quantity,
    p: Quantity,
) -> Result<Quantity, Refusal>
    ensures { (rows : Rowsᵛ) → t ≡ admitted_of (base_rows rows) (admit rows) → result ≡ spec.checked_div rows q p }
{
    let t = t?;
    units::lists::check_pair(t.len, q.unit, p.unit)?;
    if floats::is_zero(p.value) {
        return Err(Refusal::DivZero);
    }
    let l = units::lists::quotient(t.len, q.unit, p.unit)?;
    Ok(answers::with_mark(q.value / p.value, l, true))
}

pub fn checked_div(rows: Rows, q: Quantity, p: Quantity) -> Result<Quantity, Refusal>
    ensures { result ≡ spec.checked_div rows q p }
{
    let t = lists::opening::admitted(rows);
    checked_div_over(t, q, p)
}
