// The conversions that 02 adds, from bytes to bytes: the table and the arguments as bytes, the answer into lent room.
// The calls of the byte form, under its names.
// Kept: calls alike but for the call they pass on to: each has its name in 01 or 02 and a contract over its own definition.
#![tactic(auto)]

ghost use Rattle.replies.specs.Held.{Replied};
ghost use Rattle.askconversions.specs.Calls as spec;

use replies::Reply;
use tables::pages::{Bases, Columns};
use wire::arguments;

#[tactic(auto, unfolding(crate::specs::Calls::convert_merged))]
pub fn convert_merged(table: &[u8], quantity: &[u8], target: &[u8], out: &mut [u8]) -> Reply
    ensures { Replied out.old (spec.convert_merged table.now quantity.now target.now) result out.new }
{
    let mut columns = Columns::zeros();
    let q = arguments::quantity(quantity);
    let l = arguments::list(target);
    let o = intake::open_lists(table, q.unit, l, &mut columns);
    replies::quantity(
        quantities::conversions::convert_merged_over(
            o,
            q,
            Bases {
                nums: &columns.nums,
                dens: &columns.dens,
            },
        ),
        out,
    )
}
