// The two simplifications from bytes to bytes: the table and the arguments as bytes, the answer into lent room.
// The calls of the byte form, under its names.
#![tactic(auto)]

ghost use Rattle.replies.specs.Held.{Replied};
ghost use Rattle.asksimplify.specs.Calls as spec;

use replies::Reply;
use tables::pages::{Bases, Columns};
use wire::arguments;

#[tactic(auto, unfolding(crate::specs::Calls::full_simplify), using(intake::proofs::Calling::alone))]
pub fn full_simplify(table: &[u8], quantity: &[u8], out: &mut [u8]) -> Reply
    ensures { Replied out.old (spec.full_simplify table.now quantity.now) result out.new }
{
    let mut columns = Columns::zeros();
    let q = arguments::quantity(quantity);
    let none = units::lists::empty();
    let o = intake::open_lists(table, q.unit, none, &mut columns);
    replies::quantity(
        simplification::full_simplify_over(
            o,
            q,
            Bases {
                nums: &columns.nums,
                dens: &columns.dens,
            },
        ),
        out,
    )
}

#[tactic(auto, unfolding(crate::specs::Calls::full_simplify_with))]
pub fn full_simplify_with(table: &[u8], quantity: &[u8], candidates: &[u8], out: &mut [u8]) -> Reply
    ensures { Replied out.old (spec.full_simplify_with table.now quantity.now candidates.now) result out.new }
{
    let q = arguments::quantity(quantity);
    let c = arguments::candidates(candidates);
    let mut columns = Columns::zeros();
    let t = intake::admit_bytes(table, &mut columns);
    replies::quantity(registry::full_simplify_with_over(t, &columns, q, c), out)
}
