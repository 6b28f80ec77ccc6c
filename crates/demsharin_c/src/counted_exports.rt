// The counted conversions as C functions over lent bytes: the table, the quantity, the target, then the room for the answer.
// Kept: the C interface: a function for each call, with numbers for its refusals.
ghost use Rattle.askcounted.specs.Calls as spec;
ghost use Rattle.demsharin.specs.Exports.{Exported};

#[unsafe(no_mangle)]
pub extern "C" fn demsharin_convert_to_counted(
    table: &[u8],
    quantity: &[u8],
    target: &[u8],
    out: &mut [u8],
) -> u32
    ensures { Exported out.old (spec.convert_to_counted table.now quantity.now target.now) result out.new }
{
    demsharin::counted_exports::demsharin_convert_to_counted(table, quantity, target, out)
}

#[unsafe(no_mangle)]
pub extern "C" fn demsharin_convert_merged_counted(
    table: &[u8],
    quantity: &[u8],
    target: &[u8],
    out: &mut [u8],
) -> u32
    ensures { Exported out.old (spec.convert_merged_counted table.now quantity.now target.now) result out.new }
{
    demsharin::counted_exports::demsharin_convert_merged_counted(table, quantity, target, out)
}
