// Every call of the byte form over lent bytes: the table, the arguments in order, then the room for the answer; the
// refusal's number, 0 for answered.
// Kept: the C interface: a function for each call, with numbers for its refusals.
ghost use Rattle.asklists.specs.Calls as lists;
ghost use Rattle.askvalues.specs.Calls as values;
ghost use Rattle.asksimplify.specs.Calls as simplify;
ghost use Rattle.askconversions.specs.Calls as conversions;
ghost use Rattle.demsharin.specs.Exports.{Exported};

#[tactic(auto, using(crate::proofs::Exporting::number_is))]
pub fn demsharin_prefix_factor(prefix: &[u8], out: &mut [u8]) -> u32
    ensures { Exported out.old (lists.prefix_factor prefix.now) result out.new }
{
    replies::number_of(asklists::prefix_factor(prefix, out))
}

// ---- lists

#[tactic(auto, using(crate::proofs::Exporting::number_is))]
pub fn demsharin_product(table: &[u8], a: &[u8], b: &[u8], out: &mut [u8]) -> u32
    ensures { Exported out.old (lists.product table.now a.now b.now) result out.new }
{
    replies::number_of(asklists::product(table, a, b, out))
}

#[tactic(auto, using(crate::proofs::Exporting::number_is))]
pub fn demsharin_quotient(table: &[u8], a: &[u8], b: &[u8], out: &mut [u8]) -> u32
    ensures { Exported out.old (lists.quotient table.now a.now b.now) result out.new }
{
    replies::number_of(asklists::quotient(table, a, b, out))
}

#[tactic(auto, using(crate::proofs::Exporting::number_is))]
pub fn demsharin_list_power(table: &[u8], list: &[u8], exponent: &[u8], out: &mut [u8]) -> u32
    ensures { Exported out.old (lists.list_power table.now list.now exponent.now) result out.new }
{
    replies::number_of(asklists::list_power(table, list, exponent, out))
}

#[tactic(auto, using(crate::proofs::Exporting::number_is))]
pub fn demsharin_canonical(table: &[u8], list: &[u8], out: &mut [u8]) -> u32
    ensures { Exported out.old (lists.canonical table.now list.now) result out.new }
{
    replies::number_of(asklists::canonical(table, list, out))
}

#[tactic(auto, using(crate::proofs::Exporting::number_is))]
pub fn demsharin_same_list(table: &[u8], a: &[u8], b: &[u8], out: &mut [u8]) -> u32
    ensures { Exported out.old (lists.same_list table.now a.now b.now) result out.new }
{
    replies::number_of(asklists::same_list(table, a, b, out))
}

#[tactic(auto, using(crate::proofs::Exporting::number_is))]
pub fn demsharin_reduce_list(table: &[u8], list: &[u8], out: &mut [u8]) -> u32
    ensures { Exported out.old (lists.reduce_list table.now list.now) result out.new }
{
    replies::number_of(asklists::reduce_list(table, list, out))
}

#[tactic(auto, using(crate::proofs::Exporting::number_is))]
pub fn demsharin_smaller_unit(table: &[u8], a: &[u8], b: &[u8], out: &mut [u8]) -> u32
    ensures { Exported out.old (lists.smaller_unit table.now a.now b.now) result out.new }
{
    replies::number_of(asklists::smaller_unit(table, a, b, out))
}

#[tactic(auto, using(crate::proofs::Exporting::number_is))]
pub fn demsharin_is_multiple_of(table: &[u8], a: &[u8], b: &[u8], out: &mut [u8]) -> u32
    ensures { Exported out.old (lists.is_multiple_of table.now a.now b.now) result out.new }
{
    replies::number_of(asklists::is_multiple_of(table, a, b, out))
}

// ---- quantities

#[tactic(auto, using(crate::proofs::Exporting::number_is))]
pub fn demsharin_reduce(table: &[u8], quantity: &[u8], out: &mut [u8]) -> u32
    ensures { Exported out.old (values.reduce table.now quantity.now) result out.new }
{
    replies::number_of(askvalues::reduce(table, quantity, out))
}

#[tactic(auto, using(crate::proofs::Exporting::number_is))]
pub fn demsharin_negate(table: &[u8], quantity: &[u8], out: &mut [u8]) -> u32
    ensures { Exported out.old (values.negate table.now quantity.now) result out.new }
{
    replies::number_of(askvalues::negate(table, quantity, out))
}

#[tactic(auto, using(crate::proofs::Exporting::number_is))]
pub fn demsharin_abs(table: &[u8], quantity: &[u8], out: &mut [u8]) -> u32
    ensures { Exported out.old (values.magnitude table.now quantity.now) result out.new }
{
    replies::number_of(askvalues::abs(table, quantity, out))
}

#[tactic(auto, using(crate::proofs::Exporting::number_is))]
pub fn demsharin_no_simplify(table: &[u8], quantity: &[u8], out: &mut [u8]) -> u32
    ensures { Exported out.old (values.no_simplify table.now quantity.now) result out.new }
{
    replies::number_of(askvalues::no_simplify(table, quantity, out))
}

#[tactic(auto, using(crate::proofs::Exporting::number_is))]
pub fn demsharin_multiply(table: &[u8], quantity: &[u8], other: &[u8], out: &mut [u8]) -> u32
    ensures { Exported out.old (values.multiply table.now quantity.now other.now) result out.new }
{
    replies::number_of(askvalues::multiply(table, quantity, other, out))
}

#[tactic(auto, using(crate::proofs::Exporting::number_is))]
pub fn demsharin_checked_div(table: &[u8], quantity: &[u8], other: &[u8], out: &mut [u8]) -> u32
    ensures { Exported out.old (values.checked_div table.now quantity.now other.now) result out.new }
{
    replies::number_of(askvalues::checked_div(table, quantity, other, out))
}

#[tactic(auto, using(crate::proofs::Exporting::number_is))]
pub fn demsharin_checked_power(table: &[u8], quantity: &[u8], other: &[u8], out: &mut [u8]) -> u32
    ensures { Exported out.old (values.checked_power table.now quantity.now other.now) result out.new }
{
    replies::number_of(askvalues::checked_power(table, quantity, other, out))
}

#[tactic(auto, using(crate::proofs::Exporting::number_is))]
pub fn demsharin_convert_to(table: &[u8], quantity: &[u8], target: &[u8], out: &mut [u8]) -> u32
    ensures { Exported out.old (values.convert_to table.now quantity.now target.now) result out.new }
{
    replies::number_of(askvalues::convert_to(table, quantity, target, out))
}

#[tactic(auto, using(crate::proofs::Exporting::number_is))]
pub fn demsharin_convert_merged(table: &[u8], quantity: &[u8], target: &[u8], out: &mut [u8]) -> u32
    ensures { Exported out.old (conversions.convert_merged table.now quantity.now target.now) result out.new }
{
    replies::number_of(askconversions::convert_merged(table, quantity, target, out))
}

#[tactic(auto, using(crate::proofs::Exporting::number_is))]
pub fn demsharin_add(table: &[u8], quantity: &[u8], other: &[u8], out: &mut [u8]) -> u32
    ensures { Exported out.old (values.add table.now quantity.now other.now) result out.new }
{
    replies::number_of(askvalues::add(table, quantity, other, out))
}

#[tactic(auto, using(crate::proofs::Exporting::number_is))]
pub fn demsharin_subtract(table: &[u8], quantity: &[u8], other: &[u8], out: &mut [u8]) -> u32
    ensures { Exported out.old (values.subtract table.now quantity.now other.now) result out.new }
{
    replies::number_of(askvalues::subtract(table, quantity, other, out))
}

#[tactic(auto, using(crate::proofs::Exporting::number_is))]
pub fn demsharin_equal(table: &[u8], quantity: &[u8], other: &[u8], out: &mut [u8]) -> u32
    ensures { Exported out.old (values.equal table.now quantity.now other.now) result out.new }
{
    replies::number_of(askvalues::equal(table, quantity, other, out))
}

#[tactic(auto, using(crate::proofs::Exporting::number_is))]
pub fn demsharin_compare(table: &[u8], quantity: &[u8], other: &[u8], out: &mut [u8]) -> u32
    ensures { Exported out.old (values.compare table.now quantity.now other.now) result out.new }
{
    replies::number_of(askvalues::compare(table, quantity, other, out))
}

#[tactic(auto, using(crate::proofs::Exporting::number_is))]
pub fn demsharin_full_simplify(table: &[u8], quantity: &[u8], out: &mut [u8]) -> u32
    ensures { Exported out.old (simplify.full_simplify table.now quantity.now) result out.new }
{
    replies::number_of(asksimplify::full_simplify(table, quantity, out))
}

#[tactic(auto, using(crate::proofs::Exporting::number_is))]
pub fn demsharin_full_simplify_with(
    table: &[u8],
    quantity: &[u8],
    candidates: &[u8],
    out: &mut [u8],
) -> u32
    ensures { Exported out.old (simplify.full_simplify_with table.now quantity.now candidates.now) result out.new }
{
    replies::number_of(asksimplify::full_simplify_with(table, quantity, candidates, out))
}
