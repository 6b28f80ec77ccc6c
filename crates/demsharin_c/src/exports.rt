// Every call of the byte form as a C function over lent bytes: the table, the arguments in order, then the room for the
// answer, each as a pointer and a length; the refusal's number, 0 for answered.
// Kept: the C interface: a function for each call, with numbers for its refusals.
ghost use Rattle.asklists.specs.Calls as lists;
ghost use Rattle.askvalues.specs.Calls as values;
ghost use Rattle.asksimplify.specs.Calls as simplify;
ghost use Rattle.askconversions.specs.Calls as conversions;
ghost use Rattle.demsharin.specs.Exports.{Exported};

#[unsafe(no_mangle)]
pub extern "C" fn demsharin_prefix_factor(prefix: &[u8], out: &mut [u8]) -> u32
    ensures { Exported out.old (lists.prefix_factor prefix.now) result out.new }
{
    demsharin::exports::demsharin_prefix_factor(prefix, out)
}

// ---- lists

#[unsafe(no_mangle)]
pub extern "C" fn demsharin_product(table: &[u8], a: &[u8], b: &[u8], out: &mut [u8]) -> u32
    ensures { Exported out.old (lists.product table.now a.now b.now) result out.new }
{
    demsharin::exports::demsharin_product(table, a, b, out)
}

#[unsafe(no_mangle)]
pub extern "C" fn demsharin_quotient(table: &[u8], a: &[u8], b: &[u8], out: &mut [u8]) -> u32
    ensures { Exported out.old (lists.quotient table.now a.now b.now) result out.new }
{
    demsharin::exports::demsharin_quotient(table, a, b, out)
}

#[unsafe(no_mangle)]
pub extern "C" fn demsharin_list_power(
    table: &[u8],
    list: &[u8],
    exponent: &[u8],
    out: &mut [u8],
) -> u32
    ensures { Exported out.old (lists.list_power table.now list.now exponent.now) result out.new }
{
    demsharin::exports::demsharin_list_power(table, list, exponent, out)
}

#[unsafe(no_mangle)]
pub extern "C" fn demsharin_canonical(table: &[u8], list: &[u8], out: &mut [u8]) -> u32
    ensures { Exported out.old (lists.canonical table.now list.now) result out.new }
{
    demsharin::exports::demsharin_canonical(table, list, out)
}

#[unsafe(no_mangle)]
pub extern "C" fn demsharin_same_list(table: &[u8], a: &[u8], b: &[u8], out: &mut [u8]) -> u32
    ensures { Exported out.old (lists.same_list table.now a.now b.now) result out.new }
{
    demsharin::exports::demsharin_same_list(table, a, b, out)
}

#[unsafe(no_mangle)]
pub extern "C" fn demsharin_reduce_list(table: &[u8], list: &[u8], out: &mut [u8]) -> u32
    ensures { Exported out.old (lists.reduce_list table.now list.now) result out.new }
{
    demsharin::exports::demsharin_reduce_list(table, list, out)
}

#[unsafe(no_mangle)]
pub extern "C" fn demsharin_smaller_unit(table: &[u8], a: &[u8], b: &[u8], out: &mut [u8]) -> u32
    ensures { Exported out.old (lists.smaller_unit table.now a.now b.now) result out.new }
{
    demsharin::exports::demsharin_smaller_unit(table, a, b, out)
}

#[unsafe(no_mangle)]
pub extern "C" fn demsharin_is_multiple_of(table: &[u8], a: &[u8], b: &[u8], out: &mut [u8]) -> u32
    ensures { Exported out.old (lists.is_multiple_of table.now a.now b.now) result out.new }
{
    demsharin::exports::demsharin_is_multiple_of(table, a, b, out)
}

// ---- quantities

#[unsafe(no_mangle)]
pub extern "C" fn demsharin_reduce(table: &[u8], quantity: &[u8], out: &mut [u8]) -> u32
    ensures { Exported out.old (values.reduce table.now quantity.now) result out.new }
{
    demsharin::exports::demsharin_reduce(table, quantity, out)
}

#[unsafe(no_mangle)]
pub extern "C" fn demsharin_negate(table: &[u8], quantity: &[u8], out: &mut [u8]) -> u32
    ensures { Exported out.old (values.negate table.now quantity.now) result out.new }
{
    demsharin::exports::demsharin_negate(table, quantity, out)
}

#[unsafe(no_mangle)]
pub extern "C" fn demsharin_abs(table: &[u8], quantity: &[u8], out: &mut [u8]) -> u32
    ensures { Exported out.old (values.magnitude table.now quantity.now) result out.new }
{
    demsharin::exports::demsharin_abs(table, quantity, out)
}

#[unsafe(no_mangle)]
pub extern "C" fn demsharin_no_simplify(table: &[u8], quantity: &[u8], out: &mut [u8]) -> u32
    ensures { Exported out.old (values.no_simplify table.now quantity.now) result out.new }
{
    demsharin::exports::demsharin_no_simplify(table, quantity, out)
}

#[unsafe(no_mangle)]
pub extern "C" fn demsharin_multiply(
    table: &[u8],
    quantity: &[u8],
    other: &[u8],
    out: &mut [u8],
) -> u32
    ensures { Exported out.old (values.multiply table.now quantity.now other.now) result out.new }
{
    demsharin::exports::demsharin_multiply(table, quantity, other, out)
}

#[unsafe(no_mangle)]
pub extern "C" fn demsharin_checked_div(
    table: &[u8],
    quantity: &[u8],
    other: &[u8],
    out: &mut [u8],
) -> u32
    ensures { Exported out.old (values.checked_div table.now quantity.now other.now) result out.new }
{
    demsharin::exports::demsharin_checked_div(table, quantity, other, out)
}

#[unsafe(no_mangle)]
pub extern "C" fn demsharin_checked_power(
    table: &[u8],
    quantity: &[u8],
    other: &[u8],
    out: &mut [u8],
) -> u32
    ensures { Exported out.old (values.checked_power table.now quantity.now other.now) result out.new }
{
    demsharin::exports::demsharin_checked_power(table, quantity, other, out)
}

#[unsafe(no_mangle)]
pub extern "C" fn demsharin_convert_to(
    table: &[u8],
    quantity: &[u8],
    target: &[u8],
    out: &mut [u8],
) -> u32
    ensures { Exported out.old (values.convert_to table.now quantity.now target.now) result out.new }
{
    demsharin::exports::demsharin_convert_to(table, quantity, target, out)
}

#[unsafe(no_mangle)]
pub extern "C" fn demsharin_convert_merged(
    table: &[u8],
    quantity: &[u8],
    target: &[u8],
    out: &mut [u8],
) -> u32
    ensures { Exported out.old (conversions.convert_merged table.now quantity.now target.now) result out.new }
{
    demsharin::exports::demsharin_convert_merged(table, quantity, target, out)
}

#[unsafe(no_mangle)]
pub extern "C" fn demsharin_add(table: &[u8], quantity: &[u8], other: &[u8], out: &mut [u8]) -> u32
    ensures { Exported out.old (values.add table.now quantity.now other.now) result out.new }
{
    demsharin::exports::demsharin_add(table, quantity, other, out)
}

#[unsafe(no_mangle)]
pub extern "C" fn demsharin_subtract(
    table: &[u8],
    quantity: &[u8],
    other: &[u8],
    out: &mut [u8],
) -> u32
    ensures { Exported out.old (values.subtract table.now quantity.now other.now) result out.new }
{
    demsharin::exports::demsharin_subtract(table, quantity, other, out)
}

#[unsafe(no_mangle)]
pub extern "C" fn demsharin_equal(
    table: &[u8],
    quantity: &[u8],
    other: &[u8],
    out: &mut [u8],
) -> u32
    ensures { Exported out.old (values.equal table.now quantity.now other.now) result out.new }
{
    demsharin::exports::demsharin_equal(table, quantity, other, out)
}

#[unsafe(no_mangle)]
pub extern "C" fn demsharin_compare(
    table: &[u8],
    quantity: &[u8],
    other: &[u8],
    out: &mut [u8],
) -> u32
    ensures { Exported out.old (values.compare table.now quantity.now other.now) result out.new }
{
    demsharin::exports::demsharin_compare(table, quantity, other, out)
}

#[unsafe(no_mangle)]
pub extern "C" fn demsharin_full_simplify(table: &[u8], quantity: &[u8], out: &mut [u8]) -> u32
    ensures { Exported out.old (simplify.full_simplify table.now quantity.now) result out.new }
{
    demsharin::exports::demsharin_full_simplify(table, quantity, out)
}

#[unsafe(no_mangle)]
pub extern "C" fn demsharin_full_simplify_with(
    table: &[u8],
    quantity: &[u8],
    candidates: &[u8],
    out: &mut [u8],
) -> u32
    ensures { Exported out.old (simplify.full_simplify_with table.now quantity.now candidates.now) result out.new }
{
    demsharin::exports::demsharin_full_simplify_with(table, quantity, candidates, out)
}
