// The canonical form of a list of a table, and equality of two (01, "Canonical form"). `_over`: over lists that are opened.
ghost use Rattle.std.specs.Prelude.{◌≡◌, []};
ghost use Rattle.units.specs.declared.Factors.{Factors as Factorsᵛ};
ghost use Rattle.units.specs.declared.Rows.{Rows as Rowsᵛ};
ghost use Rattle.units.specs.Lists.{pack, made_of};
ghost use Rattle.tables.specs.Rows.{base_rows};
ghost use Rattle.lists.specs.Held.{opening, opened_of};
ghost use Rattle.lists.specs.Calls as spec;
ghost use Rattle.lists.specs.Calls.{same_lists};

use super::opening::Opened;
use exponents::refusals::Refusal;
use tables::pages::Columns;
use units::{Factors, Rows};

pub fn canonical_over(o: Result<Opened, Refusal>) -> Result<Factors, Refusal>
    ensures { (rows : Rowsᵛ) (l : Factorsᵛ) → o ≡ opened_of (base_rows rows) (opening rows l (pack [])) → result ≡ made_of (spec.canonical rows l) }
{
    let o = o?;
    let c = canonical::form::canonical(o.a)?;
    Ok(super::opening::factors_of(c))
}

#[tactic(auto, using(crate::proofs::Ready::beside))]
pub fn canonical(rows: Rows, l: Factors) -> Result<Factors, Refusal>
    ensures { result ≡ made_of (spec.canonical rows l) }
{
    let mut columns = Columns::zeros();
    let none = units::lists::empty();
    let o = super::opening::open_lists(rows, l, none, &mut columns);
    canonical_over(o)
}

pub fn same_list_over(o: Result<Opened, Refusal>) -> Result<bool, Refusal>
    ensures { (rows : Rowsᵛ) (a b : Factorsᵛ) → o ≡ opened_of (base_rows rows) (opening rows a b) → result ≡ same_lists rows a b }
{
    let o = o?;
    canonical::equality::equal(o.a, o.b)
}

// Kept: a call of 01, over a table.
pub fn same_list(rows: Rows, a: Factors, b: Factors) -> Result<bool, Refusal>
    ensures { result ≡ same_lists rows a b }
{
    let mut columns = Columns::zeros();
    let o = super::opening::open_lists(rows, a, b, &mut columns);
    same_list_over(o)
}
