// Calls on one quantity: negation, `abs`, `no_simplify`, reduction (01, "What we take", "Records and sizes", "Powers and scales"). `_over`: over a table that is checked, or a list that is opened.
// Kept: calls alike but for the call they pass on to: each has its name in 01 or 02 and a contract over its own definition.
ghost use Rattle.std.specs.Prelude.{◌≡◌, []};
ghost use Rattle.units.specs.declared.Rows.{Rows as Rowsᵛ};
ghost use Rattle.units.specs.Lists.{pack, made_of};
ghost use Rattle.tables.specs.Rows.{admit, base_rows};
ghost use Rattle.tables.specs.Held.{admitted_of};
ghost use Rattle.lists.specs.Held.{OpensIn};
ghost use Rattle.values.specs.Calls as spec;

use super::answers;
use exponents::refusals::Refusal;
use lists::opening::Opened;
use tables::pages::{Bases, Columns};
use tables::{Admitted, Rejected};
use units::{Factors, Quantity, Rows};

// A list of a table, checked, its places past the end clean.
#[tactic(auto, unfolding(crate::specs::Calls::listed, exponents::specs::Outcome::bind), using(units::proofs::Checked::passes, units::proofs::Checked::short, units::proofs::Laws::len_pack))]
pub fn listed_over(t: Result<Admitted, Rejected>, l: Factors) -> Result<Factors, Refusal>
    ensures { (rows : Rowsᵛ) → t ≡ admitted_of (base_rows rows) (admit rows) → result ≡ made_of (spec.listed rows l) }
{
    let t = t?;
    units::lists::check_list(t.len, l)?;
    let none = units::lists::empty();
    Ok(units::lists::append(none, l))
}

pub fn listed(rows: Rows, l: Factors) -> Result<Factors, Refusal>
    ensures { result ≡ made_of (spec.listed rows l) }
{
    let t = lists::opening::admitted(rows);
    listed_over(t, l)
}

#[tactic(auto, unfolding(crate::specs::Calls::negate), using(crate::proofs::Answered::made_refused, crate::proofs::Answered::made_kept))]
pub fn negate_over(t: Result<Admitted, Rejected>, q: Quantity) -> Result<Quantity, Refusal>
    ensures { (rows : Rowsᵛ) → t ≡ admitted_of (base_rows rows) (admit rows) → result ≡ spec.negate rows q }
{
    let l = listed_over(t, q.unit)?;
    Ok(answers::with_mark(-q.value, l, true))
}

pub fn negate(rows: Rows, q: Quantity) -> Result<Quantity, Refusal>
    ensures { result ≡ spec.negate rows q }
{
    let t = lists::opening::admitted(rows);
    negate_over(t, q)
}

#[tactic(auto, unfolding(crate::specs::Calls::magnitude), using(crate::proofs::Answered::made_refused, crate::proofs::Answered::made_kept))]
pub fn abs_over(t: Result<Admitted, Rejected>, q: Quantity) -> Result<Quantity, Refusal>
    ensures { (rows : Rowsᵛ) → t ≡ admitted_of (base_rows rows) (admit rows) → result ≡ spec.magnitude rows q }
{
    let l = listed_over(t, q.unit)?;
    Ok(answers::with_mark(floats::abs(q.value), l, true))
}

pub fn abs(rows: Rows, q: Quantity) -> Result<Quantity, Refusal>
    ensures { result ≡ spec.magnitude rows q }
{
    let t = lists::opening::admitted(rows);
    abs_over(t, q)
}

#[tactic(auto, unfolding(crate::specs::Calls::no_simplify), using(crate::proofs::Answered::made_refused, crate::proofs::Answered::made_kept))]
pub fn no_simplify_over(t: Result<Admitted, Rejected>, q: Quantity) -> Result<Quantity, Refusal>
    ensures { (rows : Rowsᵛ) → t ≡ admitted_of (base_rows rows) (admit rows) → result ≡ spec.no_simplify rows q }
{
    let l = listed_over(t, q.unit)?;
    Ok(answers::with_mark(q.value, l, false))
}

pub fn no_simplify(rows: Rows, q: Quantity) -> Result<Quantity, Refusal>
    ensures { result ≡ spec.no_simplify rows q }
{
    let t = lists::opening::admitted(rows);
    no_simplify_over(t, q)
}

#[tactic(auto, unfolding(crate::specs::Calls::reduce), using(crate::proofs::Answered::reduced_refused, crate::proofs::Answered::reduced_kept))]
pub fn reduce_over(
    o: Result<Opened, Refusal>,
    q: Quantity,
    bases: Bases,
) -> Result<Quantity, Refusal>
    ensures { (rows : Rowsᵛ) → OpensIn rows q.unit (pack []) o bases.entry → result ≡ spec.reduce rows q }
{
    let x = lists::reductions::reduce_list_over(o, bases)?;
    Ok(answers::with_mark(q.value * x.scale, x.unit, true))
}

// `to_base_unit_representation`
#[tactic(auto, using(lists::proofs::Ready::beside))]
pub fn reduce(rows: Rows, q: Quantity) -> Result<Quantity, Refusal>
    ensures { result ≡ spec.reduce rows q }
{
    let mut columns = Columns::zeros();
    let none = units::lists::empty();
    let o = lists::opening::open_lists(rows, q.unit, none, &mut columns);
    reduce_over(
        o,
        q,
        Bases {
            nums: &columns.nums,
            dens: &columns.dens,
        },
    )
}
