// The calls over lent rows: every call takes the table as a run of row records and copies it in once; the work is done by
// value in the crates below.
// Kept: calls alike but for the call they pass on to: each has its name in 01 or 02 and a contract over its own definition.
#![tactic(auto)]

ghost use Rattle.std.specs.Prelude.{◌≡◌};
ghost use Rattle.units.specs.Lists.{made_of};
ghost use Rattle.units.specs.Prefixes as prefixes;
ghost use Rattle.lent.specs.Lent.{lent_rows_lem, lent_candidates};
ghost use Rattle.reduction.specs.Reduction.{reduced_of};
ghost use Rattle.lists.specs.Calls as lists;
ghost use Rattle.values.specs.Calls as values;
ghost use Rattle.quantities.specs.Comparisons.{compared_of};
ghost use Rattle.quantities.specs.Calls as quantities;
ghost use Rattle.counted.specs.Calls as counted;
ghost use Rattle.counted.specs.Calls.{counted_of};
ghost use Rattle.sums.specs.Calls as sums;
ghost use Rattle.powers.specs.Calls as powers;
ghost use Rattle.simplification.specs.Calls as simplification;
ghost use Rattle.registry.specs.Calls as registry;

use counted::Counted;
use exponents::Exponent;
use exponents::refusals::Refusal;
use reduction::reduce::Reduced;
use std::cmp::Ordering;
use units::{Candidate, Factors, Prefix, Quantity, Row};

pub fn prefix_factor(p: Prefix) -> Result<f64, Refusal>
    ensures { result ≡ prefixes.prefix_factor p }
{
    units::prefixes::prefix_factor(p)
}

// ---- lists

pub fn product(rows: &[Row], a: Factors, b: Factors) -> Result<Factors, Refusal>
    ensures { result ≡ made_of (lists.product (lent_rows_lem rows.now) a b) }
{
    lists::joins::product(lent::rows_of(rows), a, b)
}

pub fn quotient(rows: &[Row], a: Factors, b: Factors) -> Result<Factors, Refusal>
    ensures { result ≡ made_of (lists.quotient (lent_rows_lem rows.now) a b) }
{
    lists::joins::quotient(lent::rows_of(rows), a, b)
}

pub fn list_power(rows: &[Row], a: Factors, e: Exponent) -> Result<Factors, Refusal>
    ensures { result ≡ made_of (lists.list_power (lent_rows_lem rows.now) a e) }
{
    lists::joins::list_power(lent::rows_of(rows), a, e)
}

pub fn canonical(rows: &[Row], l: Factors) -> Result<Factors, Refusal>
    ensures { result ≡ made_of (lists.canonical (lent_rows_lem rows.now) l) }
{
    lists::forms::canonical(lent::rows_of(rows), l)
}

pub fn same_list(rows: &[Row], a: Factors, b: Factors) -> Result<bool, Refusal>
    ensures { result ≡ lists.same_lists (lent_rows_lem rows.now) a b }
{
    lists::forms::same_list(lent::rows_of(rows), a, b)
}

pub fn reduce_list(rows: &[Row], l: Factors) -> Result<Reduced, Refusal>
    ensures { result ≡ reduced_of (lists.reduction (lent_rows_lem rows.now) l) }
{
    lists::reductions::reduce_list(lent::rows_of(rows), l)
}

pub fn smaller_unit(rows: &[Row], a: Factors, b: Factors) -> Result<Factors, Refusal>
    ensures { result ≡ made_of (lists.smaller_unit (lent_rows_lem rows.now) a b) }
{
    lists::reductions::smaller_unit(lent::rows_of(rows), a, b)
}

pub fn is_multiple_of(rows: &[Row], a: Factors, b: Factors) -> Result<Option<Exponent>, Refusal>
    ensures { result ≡ lists.multiple (lent_rows_lem rows.now) a b }
{
    lists::reductions::is_multiple_of(lent::rows_of(rows), a, b)
}

// ---- quantities

pub fn reduce(rows: &[Row], q: Quantity) -> Result<Quantity, Refusal>
    ensures { result ≡ values.reduce (lent_rows_lem rows.now) q }
{
    values::single::reduce(lent::rows_of(rows), q)
}

pub fn negate(rows: &[Row], q: Quantity) -> Result<Quantity, Refusal>
    ensures { result ≡ values.negate (lent_rows_lem rows.now) q }
{
    values::single::negate(lent::rows_of(rows), q)
}

pub fn abs(rows: &[Row], q: Quantity) -> Result<Quantity, Refusal>
    ensures { result ≡ values.magnitude (lent_rows_lem rows.now) q }
{
    values::single::abs(lent::rows_of(rows), q)
}

pub fn no_simplify(rows: &[Row], q: Quantity) -> Result<Quantity, Refusal>
    ensures { result ≡ values.no_simplify (lent_rows_lem rows.now) q }
{
    values::single::no_simplify(lent::rows_of(rows), q)
}

pub fn multiply(rows: &[Row], q: Quantity, p: Quantity) -> Result<Quantity, Refusal>
    ensures { result ≡ values.multiply (lent_rows_lem rows.now) q p }
{
    values::pairs::multiply(lent::rows_of(rows), q, p)
}

pub fn checked_div(rows: &[Row], q: Quantity, p: Quantity) -> Result<Quantity, Refusal>
    ensures { result ≡ values.checked_div (lent_rows_lem rows.now) q p }
{
    values::pairs::checked_div(lent::rows_of(rows), q, p)
}

pub fn checked_power(rows: &[Row], q: Quantity, p: Quantity) -> Result<Quantity, Refusal>
    ensures { result ≡ powers.checked_power (lent_rows_lem rows.now) q p }
{
    powers::checked_power(lent::rows_of(rows), q, p)
}

pub fn convert_to(rows: &[Row], q: Quantity, target: Factors) -> Result<Quantity, Refusal>
    ensures { result ≡ quantities.convert_to (lent_rows_lem rows.now) q target }
{
    quantities::conversions::convert_to(lent::rows_of(rows), q, target)
}

pub fn convert_merged(rows: &[Row], q: Quantity, target: Factors) -> Result<Quantity, Refusal>
    ensures { result ≡ quantities.convert_merged (lent_rows_lem rows.now) q target }
{
    quantities::conversions::convert_merged(lent::rows_of(rows), q, target)
}

// ---- with the multiplications that they take (02, order 5)

pub fn convert_to_counted(rows: &[Row], q: Quantity, target: Factors) -> Result<Counted, Refusal>
    ensures { result ≡ counted_of (counted.convert_to_counted (lent_rows_lem rows.now) q target) }
{
    counted::convert_to_counted(lent::rows_of(rows), q, target)
}

pub fn convert_merged_counted(
    rows: &[Row],
    q: Quantity,
    target: Factors,
) -> Result<Counted, Refusal>
    ensures { result ≡ counted_of (counted.convert_merged_counted (lent_rows_lem rows.now) q target) }
{
    counted::convert_merged_counted(lent::rows_of(rows), q, target)
}

// ---- sums, products and powers

pub fn add(rows: &[Row], q: Quantity, p: Quantity) -> Result<Quantity, Refusal>
    ensures { result ≡ sums.add (lent_rows_lem rows.now) q p }
{
    sums::add(lent::rows_of(rows), q, p)
}

pub fn subtract(rows: &[Row], q: Quantity, p: Quantity) -> Result<Quantity, Refusal>
    ensures { result ≡ sums.subtract (lent_rows_lem rows.now) q p }
{
    sums::subtract(lent::rows_of(rows), q, p)
}

pub fn equal(rows: &[Row], q: Quantity, p: Quantity) -> Result<bool, Refusal>
    ensures { result ≡ quantities.equal (lent_rows_lem rows.now) q p }
{
    quantities::comparisons::equal(lent::rows_of(rows), q, p)
}

pub fn compare(rows: &[Row], q: Quantity, p: Quantity) -> Result<Ordering, Refusal>
    ensures { result ≡ compared_of (quantities.compare (lent_rows_lem rows.now) q p) }
{
    quantities::comparisons::compare(lent::rows_of(rows), q, p)
}

pub fn full_simplify(rows: &[Row], q: Quantity) -> Result<Quantity, Refusal>
    ensures { result ≡ simplification.full_simplify (lent_rows_lem rows.now) q }
{
    simplification::full_simplify(lent::rows_of(rows), q)
}

pub fn full_simplify_with(
    rows: &[Row],
    q: Quantity,
    candidates: &[Candidate],
) -> Result<Quantity, Refusal>
    ensures { result ≡ registry.full_simplify_with (lent_rows_lem rows.now) q (lent_candidates candidates.now) }
{
    registry::full_simplify_with(lent::rows_of(rows), q, lent::candidates_of(candidates))
}
