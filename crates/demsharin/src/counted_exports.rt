// The counted conversions over lent bytes: the table, the quantity, the target, then the room for the answer.
// Kept: the C interface: a function for each call, with numbers for its refusals.
ghost use Rattle.askcounted.specs.Calls as spec;
ghost use Rattle.demsharin.specs.Exports.{Exported};

#[tactic(auto, using(crate::proofs::Exporting::number_is))]
pub fn demsharin_convert_to_counted(
    table: &[u8],
    quantity: &[u8],
    target: &[u8],
    out: &mut [u8],
) -> u32
    ensures { Exported out.old (spec.convert_to_counted table.now quantity.now target.now) result out.new }
{
    replies::number_of(askcounted::convert_to_counted(table, quantity, target, out))
}

#[tactic(auto, using(crate::proofs::Exporting::number_is))]
pub fn demsharin_convert_merged_counted(
    table: &[u8],
    quantity: &[u8],
    target: &[u8],
    out: &mut [u8],
) -> u32
    ensures { Exported out.old (spec.convert_merged_counted table.now quantity.now target.now) result out.new }
{
    replies::number_of(askcounted::convert_merged_counted(table, quantity, target, out))
}
