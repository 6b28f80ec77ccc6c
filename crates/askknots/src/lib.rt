// The calls on knot vectors from bytes to bytes: the table, the knots and the rule as bytes, the answer into lent room.
#![tactic(auto)]

ghost use Rattle.std.specs.Prelude.{◌≡◌, List, ◌+◌, ◌*◌, ◌≤◌, length, take};
ghost use Rattle.std.proofs.lemmas.List.Edits.{sets};
ghost use Rattle.exponents.specs.Outcome.{Ok};
ghost use Rattle.wire.specs.Bytes.{run_bytes};
ghost use Rattle.replies.specs.Held.{Replied};
ghost use Rattle.knotruns.specs.Runs.{Run, run, firsts as firstsOf, multiplicities};
ghost use Rattle.askknots.specs.Records.{rule_at, bad_rule, rule_from, span_from, distinct_bytes, vector_bytes};
ghost use Rattle.askknots.specs.Calls as spec;

use exponents::refusals::Refusal;
use knots::{Rule, Span};
use replies::Reply;
use tables::pages::Columns;
use wire::numbers::{read_u32, read_u64, store};
use wire::reading;

// ---- the arguments

#[tactic(auto, unfolding(crate::specs::Records::rule_at))]
fn read_rule(s: &[u8]) -> Rule
    requires { 336 ≤ length s.now }
    ensures { result ≡ rule_at s.now 0 }
{
    let tolerance = floats::of_bits(read_u64(s, 0));
    let degree = read_u32(s, 8);
    let unit = reading::read_list(s, 12);
    Rule {
        unit,
        tolerance,
        degree,
    }
}

// No degree is 0.
fn bad_rule() -> Rule
    ensures { result ≡ bad_rule }
{
    let unit = wire::arguments::bad_list();
    Rule {
        unit,
        tolerance: 0.0,
        degree: 0,
    }
}

#[tactic(auto, unfolding(crate::specs::Records::rule_from))]
fn rule_of(s: &[u8]) -> Rule
    ensures { result ≡ rule_from s.now }
{
    if s.len() == 336 {
        return read_rule(s);
    }
    bad_rule()
}

#[tactic(auto, unfolding(crate::specs::Records::span_at, crate::specs::Records::span_from))]
fn span_of(s: &[u8]) -> Span
    ensures { result ≡ span_from s.now }
{
    if s.len() == 352 {
        let rule = read_rule(s);
        let x = floats::of_bits(read_u64(s, 336));
        let at = read_u32(s, 344) as usize;
        return Span { rule, x, at };
    }
    let rule = bad_rule();
    Span {
        rule,
        x: 0.0,
        at: 0,
    }
}

// ---- the answers

#[tactic(auto, using(crate::proofs::Stored::distinct_written))]
fn put_run(out: &mut [u8], at: usize, x: f64, k: u32)
    requires { at + 16 ≤ length out.old }
    ensures { (out.new ≡ sets out.old at (distinct_bytes (run x k))) × (length out.new ≡ length out.old) }
{
    store(out, at, 8, floats::bits_of(x));
    store(out, at + 8, 4, k as u64);
    store(out, at + 12, 4, 0);
}

// n distinct values with their multiplicities.
#[tactic(auto, using(crate::proofs::Stored::left_all, crate::proofs::Stored::left_on, crate::proofs::Stored::left_none))]
fn put_runs(out: &mut [u8], at: usize, firsts: &[f64], times: &[u32], n: usize)
    requires { (n ≤ 512) × (n ≤ length firsts.now) × (n ≤ length times.now) × (at + n * 16 ≤ length out.old) }
    ensures { (length out.new ≡ length out.old) × ((rs : List Run) → n ≡ length rs → take n firsts.now ≡ firstsOf rs → take n times.now ≡ multiplicities rs → out.new ≡ sets out.old at (run_bytes distinct_bytes rs)) }
{
    for i in 0..n {
        put_run(out, at + i * 16, firsts[i], times[i]);
    }
}

// The same behind their number.
#[tactic(auto, using(replies::proofs::Sent::too_short, replies::proofs::Sent::fits_in, replies::proofs::Sent::left_by, crate::proofs::Stored::vector_sized, crate::proofs::Stored::stored))]
fn vector(firsts: &[f64], times: &[u32], n: usize, out: &mut [u8]) -> Reply
    requires { (n ≤ 512) × (n ≤ length firsts.now) × (n ≤ length times.now) }
    ensures { (rs : List Run) → n ≡ length rs → take n firsts.now ≡ firstsOf rs → take n times.now ≡ multiplicities rs → Replied out.old (Ok (vector_bytes rs)) result out.new }
{
    let len = 8 + n * 16;
    if out.len() < len {
        return Err(Refusal::Room);
    }
    store(out, 0, 4, n as u64);
    store(out, 4, 4, 0);
    put_runs(out, 8, firsts, times, n);
    Ok(len)
}

// ---- the calls

pub fn knot_vector(table: &[u8], knots: &[u8], rule: &[u8], out: &mut [u8]) -> Reply
    ensures { Replied out.old (spec.knot_vector table.now knots.now rule.now) result out.new }
{
    let u = rule_of(rule);
    let mut columns = Columns::zeros();
    // Kept: the call over knots takes two rooms, and its contract speaks of each.
    let mut firsts = [0.0; 512];
    let mut times = [0u32; 512];
    let t = intake::admit_bytes(table, &mut columns);
    let n = knots::knot_vector_over(t, &columns, knots, u, &mut firsts, &mut times)?;
    vector(&firsts, &times, n, out)
}

#[tactic(auto, unfolding(crate::specs::Calls::span_quotient))]
pub fn span_quotient(table: &[u8], knots: &[u8], rule: &[u8], out: &mut [u8]) -> Reply
    ensures { Replied out.old (spec.span_quotient table.now knots.now rule.now) result out.new }
{
    let a = span_of(rule);
    let mut columns = Columns::zeros();
    let t = intake::admit_bytes(table, &mut columns);
    let q = knots::span_quotient_over(t, &columns, knots, a);
    replies::factor(q, out)
}
