// A row's key (01, "Canonical form"), from its base exponents in rank order: one whole number for each.
// Public: `key_of`, `check_key`. Neither asks anything of its caller.
ghost use Rattle.std.specs.Prelude.{◌≡◌, ◌≤◌, nat_abs, IfOk};
ghost use Rattle.exponents.specs.Outcome.{tested};
ghost use Rattle.exponents.specs.Fractions.{most, lcm?};
ghost use Rattle.exponents.specs.Held.{with_sign};
ghost use Rattle.keys.specs.Key as spec;
ghost use Rattle.keys.specs.Held.{part};

use exponents::refusals::Refusal;
use exponents::{Exponent, signs};

// ---- the common multiple of the denominators

// One denominator more; most are 1, which changes nothing.
#[tactic(auto, using(crate::proofs::KeyLaws::joining))]
fn joined(m: u32, b: u32) -> Result<u32, Refusal>
    requires { (1 ≤ m) × (m ≤ most) }
    ensures value { result ≡ lcm? m b }
    ensures sound { IfOk result (λ n. (1 ≤ n) × (n ≤ most)) }
{
    if b == 1 {
        return Ok(m);
    }
    exponents::common_multiple(m, b)
}

// The least common multiple of all; a refusal is passed on.
#[tactic(auto, using(exponents::proofs::Taking::drop_step_of, exponents::proofs::Taking::drop_end_of), unfolding(crate::specs::Key::multiple, exponents::specs::Outcome::bind))]
fn multiple(d: [Exponent; 16]) -> Result<u32, Refusal>
    ensures { result ≡ spec.multiple 1 d }
{
    let mut m = 1;
    for x in &d {
        m = joined(m, x.den)?;
    }
    Ok(m)
}

// Whether there is a key.
#[tactic(auto, unfolding(crate::specs::Key::key))]
pub fn check_key(d: [Exponent; 16]) -> Result<(), Refusal>
    ensures { result ≡ tested (spec.key d) }
{
    multiple(d)?;
    Ok(())
}

// ---- the numbers, each by its size and its sign

// |m x|. A common multiple has no denominator 0: the test only spares callers a proof of it.
#[tactic(auto, using(crate::proofs::KeyLaws::size_is, crate::proofs::KeyLaws::no_top, crate::proofs::KeyLaws::no_bottom, exponents::proofs::Size::cross, crate::proofs::KeyLaws::quotient_small))]
fn size(m: u32, x: Exponent) -> u64
    ensures { (result ≡ nat_abs (spec.whole m x)) × (result ≤ 9223372034707292160) }
{
    let n = signs::top(x);
    let b = signs::bottom(x);
    if n == 0 {
        return 0;
    }
    if b == 0 {
        return 0;
    }
    n * (m as u64 / b)
}

// The greatest common divisor of the sizes.
#[tactic(auto, using(exponents::proofs::Taking::drop_step_of, exponents::proofs::Taking::drop_end_of), unfolding(crate::specs::Key::divisor, crate::specs::Key::wholes))]
fn divisor(m: u32, d: [Exponent; 16]) -> u64
    ensures { result ≡ spec.divisor 0 (spec.wholes m d) }
{
    let mut g = 0;
    for x in &d {
        g = exponents::gcd(g, size(m, *x));
    }
    g
}

// Whether the first number that is not zero is below zero.
#[tactic(auto, using(exponents::proofs::Taking::drop_step_of, exponents::proofs::Taking::drop_end_of, crate::proofs::KeyLaws::below_none, crate::proofs::KeyLaws::below_some), unfolding(crate::specs::Key::wholes))]
fn turned(m: u32, d: [Exponent; 16]) -> bool
    ensures { result ≡ spec.below (spec.wholes m d) }
{
    for x in &d {
        if size(m, *x) != 0 {
            return signs::below(*x);
        }
    }
    false
}

// n or -n
// Kept: a key is stated by its sign and its size.
#[tactic(auto, using(exponents::proofs::Size::minus_read))]
fn signed(neg: bool, n: u64) -> i64
    requires { n ≤ 9223372034707292160 }
    ensures { result ≡ with_sign neg n }
{
    let v = n as i64;
    if neg { 0 - v } else { v }
}

// m x or -m x, divided by g, which is 0 only where all numbers are.
#[tactic(auto, using(crate::proofs::KeyLaws::part_is, crate::proofs::KeyLaws::no_part))]
fn part(s: bool, g: u64, m: u32, x: Exponent) -> i64
    ensures { result ≡ part s g m x }
{
    let n = size(m, x);
    if n == 0 {
        return 0;
    }
    if g == 0 {
        return 0;
    }
    signed(signs::unlike(s, signs::below(x)), n / g)
}

// The numbers divided by their greatest common divisor, the first one positive.
fn reduced(m: u32, d: [Exponent; 16]) -> [i64; 16]
    ensures { result ≡ spec.reduce (spec.wholes m d) }
{
    let g = divisor(m, d);
    let s = turned(m, d);
    let mut k = [0; 16];
    for i in 0..16 {
        k[i] = part(s, g, m, d[i]);
    }
    k
}

// A row's key from its base exponents: a number for each base row in rank order.
#[tactic(auto, unfolding(crate::specs::Key::key))]
pub fn key_of(d: [Exponent; 16]) -> Result<[i64; 16], Refusal>
    ensures { result ≡ spec.key d }
{
    let m = multiple(d)?;
    Ok(reduced(m, d))
}
