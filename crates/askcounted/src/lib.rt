// The counted conversions from bytes to bytes (02, order 5): the table and the arguments as bytes, the answer into lent room.
// The calls of the byte form, under its names.
// Kept: calls alike but for the call they pass on to: each has its name in 01 or 02 and a contract over its own definition.
#![tactic(auto)]

ghost use Rattle.std.specs.Prelude.{◌≡◌, ℕ};
ghost use Rattle.exponents.specs.Outcome.{Outcome, apply};
ghost use Rattle.units.specs.declared.Quantity.{Quantity as Quantityᵛ};
ghost use Rattle.counted.specs.Calls.{counted_of};
ghost use Rattle.replies.specs.Held.{Replied};
ghost use Rattle.askcounted.specs.Records.{counted_bytes};
ghost use Rattle.askcounted.specs.Calls as spec;

use counted::Counted;
use exponents::refusals::Refusal;
use replies::Reply;
use tables::pages::{Bases, Columns};
use wire::{arguments, numbers, writing};

// A quantity, the count, four bytes of zero.
#[tactic(auto, unfolding(crate::specs::Records::counted_bytes, replies::specs::Replies::sent, exponents::specs::Outcome::bind), using(replies::proofs::Sent::too_short, replies::proofs::Sent::fits_in, replies::proofs::Sent::left_by, crate::proofs::Stored::counted_long, crate::proofs::Stored::counted_written, exponents::proofs::Words::unmapped))]
fn sent(c: Result<Counted, Refusal>, out: &mut [u8]) -> Reply
    ensures { (o : Outcome (Quantityᵛ × ℕ)) → c ≡ counted_of o → Replied out.old (apply counted_bytes o) result out.new }
{
    let c = c?;
    if out.len() < 344 {
        return Err(Refusal::Room);
    }
    writing::write_quantity(out, 0, c.quantity);
    numbers::write_u32(out, 336, c.count);
    numbers::write_u32(out, 340, 0);
    Ok(344)
}

#[tactic(auto, unfolding(crate::specs::Calls::convert_to_counted))]
pub fn convert_to_counted(table: &[u8], quantity: &[u8], target: &[u8], out: &mut [u8]) -> Reply
    ensures { Replied out.old (spec.convert_to_counted table.now quantity.now target.now) result out.new }
{
    let mut columns = Columns::zeros();
    let q = arguments::quantity(quantity);
    let l = arguments::list(target);
    let o = intake::open_lists(table, q.unit, l, &mut columns);
    sent(
        counted::convert_to_counted_over(
            o,
            q,
            Bases {
                nums: &columns.nums,
                dens: &columns.dens,
            },
        ),
        out,
    )
}

#[tactic(auto, unfolding(crate::specs::Calls::convert_merged_counted))]
pub fn convert_merged_counted(table: &[u8], quantity: &[u8], target: &[u8], out: &mut [u8]) -> Reply
    ensures { Replied out.old (spec.convert_merged_counted table.now quantity.now target.now) result out.new }
{
    let mut columns = Columns::zeros();
    let q = arguments::quantity(quantity);
    let l = arguments::list(target);
    let o = intake::open_lists(table, q.unit, l, &mut columns);
    sent(
        counted::convert_merged_counted_over(
            o,
            q,
            Bases {
                nums: &columns.nums,
                dens: &columns.dens,
            },
        ),
        out,
    )
}
