// Reduction of a list of a table, the smaller of two units, and whether one is a power of the other (01, "Powers and scales", "The refusals", "Simplification"). `_over`: over lists that are opened.
// Kept: calls alike but for the call they pass on to: each has its name in 01 or 02 and a contract over its own definition.
ghost use Rattle.std.specs.Prelude.{◌≡◌, []};
ghost use Rattle.units.specs.declared.Factors.{Factors as Factorsᵛ};
ghost use Rattle.units.specs.declared.Rows.{Rows as Rowsᵛ};
ghost use Rattle.units.specs.Lists.{pack, made_of};
ghost use Rattle.reduction.specs.Reduction.{reduced_of};
ghost use Rattle.lists.specs.Held.{OpensIn};
ghost use Rattle.lists.specs.Calls as spec;

use super::opening::Opened;
use exponents::Exponent;
use exponents::refusals::Refusal;
use reduction::reduce::{Reduced, Smaller};
use tables::pages::{Bases, Columns};
use units::{Factors, Rows};

pub fn reduce_list_over(o: Result<Opened, Refusal>, bases: Bases) -> Result<Reduced, Refusal>
    ensures { (rows : Rowsᵛ) (l : Factorsᵛ) → OpensIn rows l (pack []) o bases.entry → result ≡ reduced_of (spec.reduction rows l) }
{
    let o = o?;
    reduction::reduce::reduce_list(o.a, o.slots, bases)
}

#[tactic(auto, using(crate::proofs::Ready::beside))]
pub fn reduce_list(rows: Rows, l: Factors) -> Result<Reduced, Refusal>
    ensures { result ≡ reduced_of (spec.reduction rows l) }
{
    let mut columns = Columns::zeros();
    let none = units::lists::empty();
    let o = super::opening::open_lists(rows, l, none, &mut columns);
    reduce_list_over(
        o,
        Bases {
            nums: &columns.nums,
            dens: &columns.dens,
        },
    )
}

// The list itself, as it was given.
pub fn smaller_unit_over(o: Result<Opened, Refusal>, bases: Bases) -> Result<Factors, Refusal>
    ensures { (rows : Rowsᵛ) (a b : Factorsᵛ) → OpensIn rows a b o bases.entry → result ≡ made_of (spec.smaller_unit rows a b) }
{
    let o = o?;
    match reduction::reduce::smaller_unit(o.a, o.b, o.slots.len, bases)? {
        Smaller::First => Ok(super::opening::factors_of(o.a)),
        Smaller::Second => Ok(super::opening::factors_of(o.b)),
    }
}

pub fn smaller_unit(rows: Rows, a: Factors, b: Factors) -> Result<Factors, Refusal>
    ensures { result ≡ made_of (spec.smaller_unit rows a b) }
{
    let mut columns = Columns::zeros();
    let o = super::opening::open_lists(rows, a, b, &mut columns);
    smaller_unit_over(
        o,
        Bases {
            nums: &columns.nums,
            dens: &columns.dens,
        },
    )
}

pub fn is_multiple_of_over(
    o: Result<Opened, Refusal>,
    bases: Bases,
) -> Result<Option<Exponent>, Refusal>
    ensures { (rows : Rowsᵛ) (a b : Factorsᵛ) → OpensIn rows a b o bases.entry → result ≡ spec.multiple rows a b }
{
    let o = o?;
    reduction::multiples::is_multiple_of(o.a, o.b, o.slots.len, bases)
}

pub fn is_multiple_of(rows: Rows, a: Factors, b: Factors) -> Result<Option<Exponent>, Refusal>
    ensures { result ≡ spec.multiple rows a b }
{
    let mut columns = Columns::zeros();
    let o = super::opening::open_lists(rows, a, b, &mut columns);
    is_multiple_of_over(
        o,
        Bases {
            nums: &columns.nums,
            dens: &columns.dens,
        },
    )
}
