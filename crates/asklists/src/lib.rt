// The calls on lists from bytes to bytes, and the prefix factor: the table and the arguments as bytes, the answer into
// lent room. The calls of the byte form, under its names.
// Kept: calls alike but for the call they pass on to: each has its name in 01 or 02 and a contract over its own definition.
#![tactic(auto)]

ghost use Rattle.replies.specs.Held.{Replied};
ghost use Rattle.asklists.specs.Calls as spec;

use replies::Reply;
use tables::pages::{Bases, Columns};
use wire::arguments;

#[tactic(auto, unfolding(crate::specs::Calls::prefix_factor))]
pub fn prefix_factor(prefix: &[u8], out: &mut [u8]) -> Reply
    ensures { Replied out.old (spec.prefix_factor prefix.now) result out.new }
{
    let p = arguments::prefix(prefix);
    replies::factor(units::prefixes::prefix_factor(p), out)
}

#[tactic(auto, unfolding(crate::specs::Calls::product))]
pub fn product(table: &[u8], a: &[u8], b: &[u8], out: &mut [u8]) -> Reply
    ensures { Replied out.old (spec.product table.now a.now b.now) result out.new }
{
    let l = arguments::list(a);
    let m = arguments::list(b);
    let t = intake::admitted(table);
    replies::unit(lists::joins::product_over(t, l, m), out)
}

#[tactic(auto, unfolding(crate::specs::Calls::quotient))]
pub fn quotient(table: &[u8], a: &[u8], b: &[u8], out: &mut [u8]) -> Reply
    ensures { Replied out.old (spec.quotient table.now a.now b.now) result out.new }
{
    let l = arguments::list(a);
    let m = arguments::list(b);
    let t = intake::admitted(table);
    replies::unit(lists::joins::quotient_over(t, l, m), out)
}

#[tactic(auto, unfolding(crate::specs::Calls::list_power))]
pub fn list_power(table: &[u8], list: &[u8], exponent: &[u8], out: &mut [u8]) -> Reply
    ensures { Replied out.old (spec.list_power table.now list.now exponent.now) result out.new }
{
    let l = arguments::list(list);
    let e = arguments::exponent(exponent);
    let t = intake::admitted(table);
    replies::unit(lists::joins::list_power_over(t, l, e), out)
}

#[tactic(auto, unfolding(crate::specs::Calls::canonical), using(intake::proofs::Calling::alone))]
pub fn canonical(table: &[u8], list: &[u8], out: &mut [u8]) -> Reply
    ensures { Replied out.old (spec.canonical table.now list.now) result out.new }
{
    let mut columns = Columns::zeros();
    let l = arguments::list(list);
    let none = units::lists::empty();
    let o = intake::open_lists(table, l, none, &mut columns);
    replies::unit(lists::forms::canonical_over(o), out)
}

#[tactic(auto, unfolding(crate::specs::Calls::same_list))]
pub fn same_list(table: &[u8], a: &[u8], b: &[u8], out: &mut [u8]) -> Reply
    ensures { Replied out.old (spec.same_list table.now a.now b.now) result out.new }
{
    let mut columns = Columns::zeros();
    let l = arguments::list(a);
    let m = arguments::list(b);
    let o = intake::open_lists(table, l, m, &mut columns);
    replies::verdict(lists::forms::same_list_over(o), out)
}

#[tactic(auto, unfolding(crate::specs::Calls::reduce_list), using(intake::proofs::Calling::alone))]
pub fn reduce_list(table: &[u8], list: &[u8], out: &mut [u8]) -> Reply
    ensures { Replied out.old (spec.reduce_list table.now list.now) result out.new }
{
    let mut columns = Columns::zeros();
    let l = arguments::list(list);
    let none = units::lists::empty();
    let o = intake::open_lists(table, l, none, &mut columns);
    replies::reduced(
        lists::reductions::reduce_list_over(
            o,
            Bases {
                nums: &columns.nums,
                dens: &columns.dens,
            },
        ),
        out,
    )
}

#[tactic(auto, unfolding(crate::specs::Calls::smaller_unit))]
pub fn smaller_unit(table: &[u8], a: &[u8], b: &[u8], out: &mut [u8]) -> Reply
    ensures { Replied out.old (spec.smaller_unit table.now a.now b.now) result out.new }
{
    let mut columns = Columns::zeros();
    let l = arguments::list(a);
    let m = arguments::list(b);
    let o = intake::open_lists(table, l, m, &mut columns);
    replies::unit(
        lists::reductions::smaller_unit_over(
            o,
            Bases {
                nums: &columns.nums,
                dens: &columns.dens,
            },
        ),
        out,
    )
}

#[tactic(auto, unfolding(crate::specs::Calls::is_multiple_of))]
pub fn is_multiple_of(table: &[u8], a: &[u8], b: &[u8], out: &mut [u8]) -> Reply
    ensures { Replied out.old (spec.is_multiple_of table.now a.now b.now) result out.new }
{
    let mut columns = Columns::zeros();
    let l = arguments::list(a);
    let m = arguments::list(b);
    let o = intake::open_lists(table, l, m, &mut columns);
    replies::multiple(
        lists::reductions::is_multiple_of_over(
            o,
            Bases {
                nums: &columns.nums,
                dens: &columns.dens,
            },
        ),
        out,
    )
}
