// Answers into lent room, as bytes: too little room is ROOM, after every other refusal; a refusal writes nothing.
// One function for each sort of answer; `read_multiple` and `read_reduced` read two of them back.
#![tactic(auto)]

ghost use Rattle.std.specs.Prelude.{Bool, List, ◌++◌, ◌≡◌, Float, length};
ghost use Prim.Native.Nat.{Ordering as Order, ◌+◌, ◌≤◌};
ghost use Rattle.exponents.specs.Outcome.{Outcome, Ok, apply, refusal_of};
ghost use Rattle.units.specs.Lists.{made_of};
ghost use Rattle.units.specs.declared.Factor.{Factor as Factorᵛ};
ghost use Rattle.keys.specs.Held.{sense_of};
ghost use Rattle.reduction.specs.Multiple.{none as noMultiple};
ghost use Rattle.reduction.specs.Reduction.{reduced_of};
ghost use Rattle.wire.specs.Bytes.{bytes_of};
ghost use Rattle.wire.specs.Records.{exponent_bytes, quantity_bytes};
ghost use Rattle.replies.specs.Held.{Replied};
ghost use Rattle.replies.specs.Replies.{unit_bytes, value_bytes, reduced_bytes, verdict_bytes, order_bytes, multiple_bytes, multiple_at, reduced_at};

use exponents::Exponent;
use exponents::refusals::Refusal;
use reduction::reduce::Reduced;
use std::cmp::Ordering;
use units::{Factors, Quantity};
use wire::{numbers, reading, writing};

// The answer's length in bytes, or the refusal.
pub type Reply = Result<usize, Refusal>;

// A reply as a number, for C and for the stream: 0 for an answer, else the refusal's.
pub fn number_of(reply: Reply) -> u32
    ensures { result ≡ refusal_of reply }
{
    match reply {
        Ok(_) => 0,
        Err(refusal) => u32::from(refusal),
    }
}

// ---- lists and quantities

#[tactic(auto, unfolding(crate::specs::Replies::sent, exponents::specs::Outcome::bind, crate::specs::Replies::unit_bytes), using(crate::proofs::Sent::too_short, crate::proofs::Sent::fits_in, crate::proofs::Sent::left_by, crate::proofs::Parts::list_long, exponents::proofs::Words::unmapped))]
pub fn unit(m: Result<Factors, Refusal>, out: &mut [u8]) -> Reply
    ensures { (o : Outcome (List Factorᵛ)) → m ≡ made_of o → Replied out.old (apply unit_bytes o) result out.new }
{
    let l = m?;
    if out.len() < 324 {
        return Err(Refusal::Room);
    }
    writing::write_list(out, 0, l);
    Ok(324)
}

#[tactic(auto, unfolding(crate::specs::Replies::sent, exponents::specs::Outcome::bind), using(crate::proofs::Sent::too_short, crate::proofs::Sent::fits_in, crate::proofs::Sent::left_by, crate::proofs::Parts::quantity_long, exponents::proofs::Words::unmapped))]
pub fn quantity(a: Result<Quantity, Refusal>, out: &mut [u8]) -> Reply
    ensures { Replied out.old (apply quantity_bytes a) result out.new }
{
    let q = a?;
    if out.len() < 336 {
        return Err(Refusal::Room);
    }
    writing::write_quantity(out, 0, q);
    Ok(336)
}

#[tactic(auto, unfolding(crate::specs::Replies::sent, exponents::specs::Outcome::bind, crate::specs::Replies::reduced_bytes, crate::specs::Replies::value_bytes, crate::specs::Replies::unit_bytes), using(crate::proofs::Sent::too_short, crate::proofs::Sent::fits_in, crate::proofs::Sent::left_by, crate::proofs::Parts::reduced_long, crate::proofs::Parts::reduced_written, exponents::proofs::Words::unmapped))]
pub fn reduced(x: Result<Reduced, Refusal>, out: &mut [u8]) -> Reply
    ensures { (o : Outcome (List Factorᵛ × Float)) → x ≡ reduced_of o → Replied out.old (apply reduced_bytes o) result out.new }
{
    let r = x?;
    if out.len() < 332 {
        return Err(Refusal::Room);
    }
    numbers::store(out, 0, 8, floats::bits_of(r.scale));
    writing::write_list(out, 8, r.unit);
    Ok(332)
}

// ---- numbers

#[tactic(auto, unfolding(crate::specs::Replies::sent, exponents::specs::Outcome::bind), using(crate::proofs::Sent::too_short, crate::proofs::Sent::fits_in, crate::proofs::Sent::left_by, crate::proofs::Parts::bytes_long))]
fn number(x: u32, out: &mut [u8]) -> Reply
    ensures { Replied out.old (Ok (bytes_of 4 x)) result out.new }
{
    if out.len() < 4 {
        return Err(Refusal::Room);
    }
    numbers::write_u32(out, 0, x);
    Ok(4)
}

#[tactic(auto, unfolding(crate::specs::Replies::sent, exponents::specs::Outcome::bind, crate::specs::Replies::verdict_bytes))]
pub fn verdict(v: Result<bool, Refusal>, out: &mut [u8]) -> Reply
    ensures { Replied out.old (apply verdict_bytes v) result out.new }
{
    let yes = v?;
    number(u32::from(yes), out)
}

#[tactic(auto, unfolding(crate::specs::Replies::sent, exponents::specs::Outcome::bind, crate::specs::Replies::order_bytes))]
pub fn order(c: Result<Ordering, Refusal>, out: &mut [u8]) -> Reply
    ensures { (o : Outcome Order) → c ≡ apply sense_of o → Replied out.old (apply order_bytes o) result out.new }
{
    let sense = c?;
    match sense {
        Ordering::Less => number(0, out),
        Ordering::Equal => number(1, out),
        Ordering::Greater => number(2, out),
    }
}

#[tactic(auto, unfolding(crate::specs::Replies::sent, exponents::specs::Outcome::bind, crate::specs::Replies::value_bytes), using(crate::proofs::Sent::too_short, crate::proofs::Sent::fits_in, crate::proofs::Sent::left_by, crate::proofs::Parts::bytes_long))]
pub fn value(x: f64, out: &mut [u8]) -> Reply
    ensures { Replied out.old (Ok (value_bytes x)) result out.new }
{
    if out.len() < 8 {
        return Err(Refusal::Room);
    }
    numbers::store(out, 0, 8, floats::bits_of(x));
    Ok(8)
}

#[tactic(auto, unfolding(crate::specs::Replies::sent, exponents::specs::Outcome::bind))]
pub fn factor(p: Result<f64, Refusal>, out: &mut [u8]) -> Reply
    ensures { Replied out.old (apply value_bytes p) result out.new }
{
    let x = p?;
    value(x, out)
}

// ---- multiples

#[tactic(auto, unfolding(crate::specs::Replies::sent, exponents::specs::Outcome::bind), using(crate::proofs::Sent::too_short, crate::proofs::Sent::fits_in, crate::proofs::Sent::left_by, crate::proofs::Parts::found_sized, crate::proofs::Parts::found_written))]
fn found(x: u32, e: Exponent, out: &mut [u8]) -> Reply
    ensures { Replied out.old (Ok (bytes_of 4 x ++ exponent_bytes e)) result out.new }
{
    if out.len() < 12 {
        return Err(Refusal::Room);
    }
    numbers::write_u32(out, 0, x);
    writing::write_exponent(out, 4, e);
    Ok(12)
}

#[tactic(auto, unfolding(crate::specs::Replies::multiple_bytes))]
fn none(out: &mut [u8]) -> Reply
    ensures { Replied out.old (Ok (multiple_bytes noMultiple)) result out.new }
{
    let e = Exponent { num: 0, den: 1 };
    found(0, e, out)
}

#[tactic(auto, unfolding(crate::specs::Replies::sent, exponents::specs::Outcome::bind, crate::specs::Replies::multiple_bytes))]
pub fn multiple(m: Result<Option<Exponent>, Refusal>, out: &mut [u8]) -> Reply
    ensures { Replied out.old (apply multiple_bytes m) result out.new }
{
    let times = m?;
    match times {
        Some(e) => found(1, e, out),
        None => none(out),
    }
}

// ---- read back

#[tactic(auto, unfolding(crate::specs::Replies::multiple_at))]
pub fn read_multiple(s: &[u8], at: usize) -> Option<Exponent>
    requires { at + 12 ≤ length s.now }
    ensures { result ≡ multiple_at s.now at }
{
    let found = numbers::read_u32(s, at);
    let e = reading::read_exponent(s, at + 4);
    if found == 0 {
        return None;
    }
    Some(e)
}

#[tactic(auto, unfolding(crate::specs::Replies::reduced_at))]
pub fn read_reduced(s: &[u8], at: usize) -> Reduced
    requires { at + 332 ≤ length s.now }
    ensures { result ≡ reduced_at s.now at }
{
    let scale = floats::of_bits(numbers::read_u64(s, at));
    let unit = reading::read_list(s, at + 8);
    Reduced { unit, scale }
}
