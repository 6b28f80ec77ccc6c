// Lists of a table joined, unmerged: product, quotient and power (01, last sentence of "Canonical form"). `_over`: over a table that is checked.
// Kept: calls alike but for the call they pass on to: each has its name in 01 or 02 and a contract over its own definition.
ghost use Rattle.std.specs.Prelude.{◌≡◌};
ghost use Rattle.units.specs.declared.Rows.{Rows as Rowsᵛ};
ghost use Rattle.units.specs.Lists.{made_of};
ghost use Rattle.tables.specs.Rows.{admit, base_rows};
ghost use Rattle.tables.specs.Held.{admitted_of};
ghost use Rattle.lists.specs.Calls as spec;

use exponents::Exponent;
use exponents::refusals::Refusal;
use tables::{Admitted, Rejected};
use units::{Factors, Rows};

#[tactic(auto, unfolding(crate::specs::Calls::product, exponents::specs::Outcome::bind))]
pub fn product_over(
    t: Result<Admitted, Rejected>,
    a: Factors,
    b: Factors,
) -> Result<Factors, Refusal>
    ensures { (rows : Rowsᵛ) → t ≡ admitted_of (base_rows rows) (admit rows) → result ≡ made_of (spec.product rows a b) }
{
    let t = t?;
    units::lists::product(t.len, a, b)
}

pub fn product(rows: Rows, a: Factors, b: Factors) -> Result<Factors, Refusal>
    ensures { result ≡ made_of (spec.product rows a b) }
{
    let t = super::opening::admitted(rows);
    product_over(t, a, b)
}

#[tactic(auto, unfolding(crate::specs::Calls::quotient, exponents::specs::Outcome::bind))]
pub fn quotient_over(
    t: Result<Admitted, Rejected>,
    a: Factors,
    b: Factors,
) -> Result<Factors, Refusal>
    ensures { (rows : Rowsᵛ) → t ≡ admitted_of (base_rows rows) (admit rows) → result ≡ made_of (spec.quotient rows a b) }
{
    let t = t?;
    units::lists::quotient(t.len, a, b)
}

pub fn quotient(rows: Rows, a: Factors, b: Factors) -> Result<Factors, Refusal>
    ensures { result ≡ made_of (spec.quotient rows a b) }
{
    let t = super::opening::admitted(rows);
    quotient_over(t, a, b)
}

#[tactic(auto, unfolding(crate::specs::Calls::list_power, exponents::specs::Outcome::bind))]
pub fn list_power_over(
    t: Result<Admitted, Rejected>,
    a: Factors,
    e: Exponent,
) -> Result<Factors, Refusal>
    ensures { (rows : Rowsᵛ) → t ≡ admitted_of (base_rows rows) (admit rows) → result ≡ made_of (spec.list_power rows a e) }
{
    let t = t?;
    units::lists::list_power(t.len, a, e)
}

pub fn list_power(rows: Rows, a: Factors, e: Exponent) -> Result<Factors, Refusal>
    ensures { result ≡ made_of (spec.list_power rows a e) }
{
    let t = super::opening::admitted(rows);
    list_power_over(t, a, e)
}
