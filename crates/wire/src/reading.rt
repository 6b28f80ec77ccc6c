// Records from bytes: what is of no kind reads as a record that breaks its rule, and places past a length are not read.
ghost use Rattle.std.specs.Prelude.{◌≡◌, true, ◌+◌, ◌*◌, ◌≤◌, length};
ghost use Rattle.wire.specs.Bytes.{count_of};
ghost use Rattle.wire.specs.Records.{exponent_at, prefix_of, prefix_at, factor_at, places_at, list_at, quantity_at, kind_of, row_at, candidate_at};

use super::numbers::{read_i32, read_u16, read_u32, read_u64};
use exponents::Exponent;
use units::{Candidate, Factor, Factors, Kind, Prefix, Quantity, Row};

#[tactic(auto, unfolding(crate::specs::Records::exponent_at, crate::specs::Records::signed_at))]
pub fn read_exponent(s: &[u8], at: usize) -> Exponent
    requires { at + 8 ≤ length s.now }
    ensures { result ≡ exponent_at s.now at }
{
    let num = read_i32(s, at);
    let den = read_u32(s, at + 4);
    Exponent { num, den }
}

// Kept: the byte form's number; type and number are other crates', so no From can stand here.
#[tactic(auto, unfolding(crate::specs::Records::prefix_of))]
pub fn prefix_of(kind: u32, n: i32) -> Prefix
    ensures { result ≡ prefix_of kind n }
{
    match kind {
        0 => Prefix::Metric(n),
        1 => Prefix::Binary(n),
        _ => Prefix::Metric(2000),
    }
}

#[tactic(auto, unfolding(crate::specs::Records::prefix_at, crate::specs::Records::signed_at))]
pub fn read_prefix(s: &[u8], at: usize) -> Prefix
    requires { at + 8 ≤ length s.now }
    ensures { result ≡ prefix_at s.now at }
{
    let kind = read_u32(s, at);
    let n = read_i32(s, at + 4);
    prefix_of(kind, n)
}

#[tactic(auto, unfolding(crate::specs::Records::factor_at))]
pub fn read_factor(s: &[u8], at: usize) -> Factor
    requires { at + 20 ≤ length s.now }
    ensures { result ≡ factor_at s.now at }
{
    let row = read_u32(s, at);
    let prefix = read_prefix(s, at + 4);
    let exponent = read_exponent(s, at + 12);
    Factor {
        row,
        prefix,
        exponent,
    }
}

// A length, or none where it is too long.
#[tactic(auto, unfolding(crate::specs::Bytes::count_of))]
pub fn count(most: usize, n: usize) -> usize
    ensures { (result ≡ count_of most n) × (result ≤ most) }
{
    if n <= most { n } else { 0 }
}

// The first n of N places from a place on; the rest hold none.
#[tactic(auto, using(crate::proofs::Runs::places_none, crate::proofs::Runs::places_turn))]
fn places<const N: usize>(s: &[u8], at: usize, n: usize) -> [Factor; N]
    requires { (n ≤ N) × (at + N * 20 ≤ length s.now) }
    ensures { result ≡ places_at N n s.now at }
{
    let none = units::lists::no_factor();
    let mut a = [none; N];
    for i in 0..n {
        a[i] = read_factor(s, at + i * 20);
    }
    a
}

#[tactic(auto, unfolding(crate::specs::Records::list_at))]
pub fn read_list(s: &[u8], at: usize) -> Factors
    requires { at + 324 ≤ length s.now }
    ensures { result ≡ list_at s.now at }
{
    let len = read_u32(s, at) as usize;
    let a = places::<16>(s, at + 4, count(16, len));
    Factors { at: a, len }
}

// Whether the lists at two places have the same numbers within their length, five to a factor, and so read alike.
// Kept: it reads bytes, so there is nothing yet that == could compare.
#[tactic(auto, using(crate::proofs::Alike::alike_on))]
pub fn same_list(s: &[u8], i: usize, j: usize) -> bool
    requires { (i + 324 ≤ length s.now) × (j + 324 ≤ length s.now) }
    ensures { result ≡ true → list_at s.now i ≡ list_at s.now j }
{
    let len = read_u32(s, i);
    if len != read_u32(s, j) {
        return false;
    }
    let n = count(16, len as usize) * 5;
    let a = i + 4;
    let b = j + 4;
    for k in 0..n {
        if read_u32(s, a + k * 4) != read_u32(s, b + k * 4) {
            return false;
        }
    }
    true
}

#[tactic(auto, unfolding(crate::specs::Records::quantity_at))]
pub fn read_quantity(s: &[u8], at: usize) -> Quantity
    requires { at + 336 ≤ length s.now }
    ensures { result ≡ quantity_at s.now at }
{
    let value = floats::of_bits(read_u64(s, at));
    let m = read_u32(s, at + 8);
    let unit = read_list(s, at + 12);
    Quantity {
        unit,
        value,
        mark: m != 0,
    }
}

// The value of a quantity alone.
#[tactic(auto, unfolding(crate::specs::Records::quantity_at))]
pub fn read_value(s: &[u8], at: usize) -> f64
    requires { at + 8 ≤ length s.now }
    ensures { result ≡ (quantity_at s.now at).value }
{
    floats::of_bits(read_u64(s, at))
}

// Kept: the byte form's number; type and number are other crates', so no From can stand here.
#[tactic(auto, unfolding(crate::specs::Records::kind_of))]
fn kind_of(kind: u16, x: f64) -> Kind
    ensures { result ≡ kind_of kind x }
{
    match kind {
        0 => Kind::Base,
        1 => Kind::Derived(x),
        _ => Kind::Derived(0.0),
    }
}

#[tactic(auto, unfolding(crate::specs::Records::row_at))]
pub fn read_row(s: &[u8], at: usize) -> Row
    requires { at + 176 ≤ length s.now }
    ensures { result ≡ row_at s.now at }
{
    let rank = read_u16(s, at);
    let k = read_u16(s, at + 2);
    let len = read_u32(s, at + 4) as usize;
    let x = floats::of_bits(read_u64(s, at + 8));
    let kind = kind_of(k, x);
    let def = places::<8>(s, at + 16, count(8, len));
    Row {
        def,
        len,
        rank,
        kind,
    }
}

#[tactic(auto, unfolding(crate::specs::Records::candidate_at))]
pub fn read_candidate(s: &[u8], at: usize) -> Candidate
    requires { at + 328 ≤ length s.now }
    ensures { result ≡ candidate_at s.now at }
{
    let rank = read_u16(s, at);
    let unit = read_list(s, at + 4);
    Candidate { unit, rank }
}
