// The calls on quantities from bytes to bytes: the table and the arguments as bytes, the answer into lent room.
// The calls of the byte form, under its names.
// Kept: calls alike but for the call they pass on to: each has its name in 01 or 02 and a contract over its own definition.
#![tactic(auto)]

ghost use Rattle.replies.specs.Held.{Replied};
ghost use Rattle.askvalues.specs.Calls as spec;

use replies::Reply;
use tables::pages::{Bases, Columns};
use wire::arguments;

#[tactic(auto, unfolding(crate::specs::Calls::reduce), using(intake::proofs::Calling::alone))]
pub fn reduce(table: &[u8], quantity: &[u8], out: &mut [u8]) -> Reply
    ensures { Replied out.old (spec.reduce table.now quantity.now) result out.new }
{
    let mut columns = Columns::zeros();
    let q = arguments::quantity(quantity);
    let none = units::lists::empty();
    let o = intake::open_lists(table, q.unit, none, &mut columns);
    replies::quantity(
        values::single::reduce_over(
            o,
            q,
            Bases {
                nums: &columns.nums,
                dens: &columns.dens,
            },
        ),
        out,
    )
}

#[tactic(auto, unfolding(crate::specs::Calls::negate))]
pub fn negate(table: &[u8], quantity: &[u8], out: &mut [u8]) -> Reply
    ensures { Replied out.old (spec.negate table.now quantity.now) result out.new }
{
    let q = arguments::quantity(quantity);
    let t = intake::admitted(table);
    replies::quantity(values::single::negate_over(t, q), out)
}

#[tactic(auto, unfolding(crate::specs::Calls::magnitude))]
pub fn abs(table: &[u8], quantity: &[u8], out: &mut [u8]) -> Reply
    ensures { Replied out.old (spec.magnitude table.now quantity.now) result out.new }
{
    let q = arguments::quantity(quantity);
    let t = intake::admitted(table);
    replies::quantity(values::single::abs_over(t, q), out)
}

#[tactic(auto, unfolding(crate::specs::Calls::no_simplify))]
pub fn no_simplify(table: &[u8], quantity: &[u8], out: &mut [u8]) -> Reply
    ensures { Replied out.old (spec.no_simplify table.now quantity.now) result out.new }
{
    let q = arguments::quantity(quantity);
    let t = intake::admitted(table);
    replies::quantity(values::single::no_simplify_over(t, q), out)
}

#[tactic(auto, unfolding(crate::specs::Calls::multiply))]
pub fn multiply(table: &[u8], quantity: &[u8], other: &[u8], out: &mut [u8]) -> Reply
    ensures { Replied out.old (spec.multiply table.now quantity.now other.now) result out.new }
{
    let q = arguments::quantity(quantity);
    let p = arguments::quantity(other);
    let t = intake::admitted(table);
    replies::quantity(values::pairs::multiply_over(t, q, p), out)
}

#[tactic(auto, unfolding(crate::specs::Calls::checked_div))]
pub fn checked_div(table: &[u8], quantity: &[u8], other: &[u8], out: &mut [u8]) -> Reply
    ensures { Replied out.old (spec.checked_div table.now quantity.now other.now) result out.new }
{
    let q = arguments::quantity(quantity);
    let p = arguments::quantity(other);
    let t = intake::admitted(table);
    replies::quantity(values::pairs::checked_div_over(t, q, p), out)
}

#[tactic(auto, unfolding(crate::specs::Calls::checked_power))]
pub fn checked_power(table: &[u8], quantity: &[u8], other: &[u8], out: &mut [u8]) -> Reply
    ensures { Replied out.old (spec.checked_power table.now quantity.now other.now) result out.new }
{
    let mut columns = Columns::zeros();
    let q = arguments::quantity(quantity);
    let p = arguments::quantity(other);
    let o = intake::open_lists(table, q.unit, p.unit, &mut columns);
    replies::quantity(
        powers::checked_power_over(
            o,
            q,
            p,
            Bases {
                nums: &columns.nums,
                dens: &columns.dens,
            },
        ),
        out,
    )
}

#[tactic(auto, unfolding(crate::specs::Calls::convert_to))]
pub fn convert_to(table: &[u8], quantity: &[u8], target: &[u8], out: &mut [u8]) -> Reply
    ensures { Replied out.old (spec.convert_to table.now quantity.now target.now) result out.new }
{
    let mut columns = Columns::zeros();
    let q = arguments::quantity(quantity);
    let l = arguments::list(target);
    let o = intake::open_lists(table, q.unit, l, &mut columns);
    replies::quantity(
        quantities::conversions::convert_to_over(
            o,
            q,
            Bases {
                nums: &columns.nums,
                dens: &columns.dens,
            },
        ),
        out,
    )
}

#[tactic(auto, unfolding(crate::specs::Calls::add))]
pub fn add(table: &[u8], quantity: &[u8], other: &[u8], out: &mut [u8]) -> Reply
    ensures { Replied out.old (spec.add table.now quantity.now other.now) result out.new }
{
    let mut columns = Columns::zeros();
    let q = arguments::quantity(quantity);
    let p = arguments::quantity(other);
    let o = intake::open_lists(table, q.unit, p.unit, &mut columns);
    replies::quantity(
        sums::add_over(
            o,
            q,
            p,
            Bases {
                nums: &columns.nums,
                dens: &columns.dens,
            },
        ),
        out,
    )
}

#[tactic(auto, unfolding(crate::specs::Calls::subtract))]
pub fn subtract(table: &[u8], quantity: &[u8], other: &[u8], out: &mut [u8]) -> Reply
    ensures { Replied out.old (spec.subtract table.now quantity.now other.now) result out.new }
{
    let mut columns = Columns::zeros();
    let q = arguments::quantity(quantity);
    let p = arguments::quantity(other);
    let o = intake::open_lists(table, q.unit, p.unit, &mut columns);
    replies::quantity(
        sums::subtract_over(
            o,
            q,
            p,
            Bases {
                nums: &columns.nums,
                dens: &columns.dens,
            },
        ),
        out,
    )
}

#[tactic(auto, unfolding(crate::specs::Calls::equal))]
pub fn equal(table: &[u8], quantity: &[u8], other: &[u8], out: &mut [u8]) -> Reply
    ensures { Replied out.old (spec.equal table.now quantity.now other.now) result out.new }
{
    let mut columns = Columns::zeros();
    let q = arguments::quantity(quantity);
    let p = arguments::quantity(other);
    let o = intake::open_lists(table, q.unit, p.unit, &mut columns);
    replies::verdict(
        quantities::comparisons::equal_over(
            o,
            q,
            p,
            Bases {
                nums: &columns.nums,
                dens: &columns.dens,
            },
        ),
        out,
    )
}

#[tactic(auto, unfolding(crate::specs::Calls::compare))]
pub fn compare(table: &[u8], quantity: &[u8], other: &[u8], out: &mut [u8]) -> Reply
    ensures { Replied out.old (spec.compare table.now quantity.now other.now) result out.new }
{
    let mut columns = Columns::zeros();
    let q = arguments::quantity(quantity);
    let p = arguments::quantity(other);
    let o = intake::open_lists(table, q.unit, p.unit, &mut columns);
    let bases = Bases {
        nums: &columns.nums,
        dens: &columns.dens,
    };
    replies::order(quantities::comparisons::compare_over(o, q, p, bases), out)
}
