// The stream of requests and answers: a request's frame, its arguments, the call that answers it, and many of them.
// `feed` answers what is whole, `answer` one request; `framed` tells how a request lies.
#![tactic(auto)]

ghost use Rattle.std.specs.Prelude.{◌≡◌, ◌++◌, ◌+◌, ◌-◌, ◌≤◌, length, take, drop};
ghost use Rattle.replies.specs.Held.{Replied};
ghost use Rattle.stream.specs.Calls.{call_of};
ghost use Rattle.stream.specs.Stream as spec;

use replies::Reply;
use wire::numbers::{read_u32, write_u32};

// How a request lies: all of it is here, and its arguments end at a place; or more is needed; or it ends the stream.
#[derive(Clone, Copy, Debug, PartialEq, Eq, Drop)]
pub enum Frame {
    Whole(usize),
    Short,
    Bad,
}

// The longest answer, and the place for one with its two numbers.
pub const LONGEST: usize = 22536;

pub const PLACE: usize = 8 + LONGEST;

// Where an argument lies.
#[derive(Clone, Copy, Drop)]
struct Part {
    from: usize,
    to: usize,
}

// How many requests were answered, the bytes that they and their answers take, and how the next one lies.
#[derive(Clone, Copy, Drop)]
pub struct Fed {
    pub count: usize,
    pub used: usize,
    pub wrote: usize,
    pub next: Frame,
}

// ---- one request

// How many arguments the call with this code has: 0 for no call's.
#[tactic(auto, using(crate::proofs::Codes::of_lists, crate::proofs::Codes::of_values, crate::proofs::Codes::of_simplify, crate::proofs::Codes::of_added))]
fn arity(code: u32) -> u32
    ensures { (result ≡ (call_of code).arity) × (result ≤ 3) }
{
    let l = codelists::arity(code);
    if l != 0 {
        return l;
    }
    let v = codevalues::arity(code);
    if v != 0 {
        return v;
    }
    let s = codesimplify::arity(code);
    if s != 0 {
        return s;
    }
    codeadded::arity(code)
}

// The most bytes that the k-th argument of the call with this code may have, counted from 0: 262,144 for Knots, which
// the calls 28 and 29 take behind the table, so that more than the 512 allowed, of 336 bytes each, get their refusal;
// 65,536 for every other one, so that 129 rows and 33 candidates do.
#[tactic(auto, unfolding(crate::specs::Stream::most))]
fn most(code: u32, k: u32) -> usize
    ensures { result ≡ spec.most code k }
{
    if ((code == 28) | (code == 29)) & (k == 1) {
        262144
    } else {
        65536
    }
}

// The frame of a request with this code, whose arguments start at `from`.
#[tactic(auto, unfolding(crate::specs::Stream::framed), using(crate::proofs::Frames::arguments_none, crate::proofs::Frames::arguments_some))]
pub fn framed(code: u32, s: &[u8], from: usize) -> Frame
    requires { from ≤ length s.now }
    ensures { result ≡ spec.framed code s.now from }
{
    let n = arity(code);
    if n == 0 {
        return Frame::Bad;
    }
    let mut at = from;
    for k in 0..n {
        if s.len() - at < 4 {
            return Frame::Short;
        }
        let m = read_u32(s, at) as usize;
        if most(code, k) < m {
            return Frame::Bad;
        }
        at += 4;
        if s.len() - at < m {
            return Frame::Short;
        }
        at += m;
    }
    Frame::Whole(at)
}

// The k-th argument in the bytes behind a code.
#[tactic(auto, using(crate::proofs::Parts::part_next, crate::proofs::Parts::part_here, crate::proofs::Parts::part_none, crate::proofs::Parts::ends_whole, crate::proofs::Parts::ends_cut))]
fn part_at(args: &[u8], k: u32) -> Part
    ensures { (take (result.to - result.from) (drop result.from args.now) ≡ spec.part k args.now) × (result.from ≤ result.to) × (result.to ≤ length args.now) }
{
    let mut at: usize = 0;
    let mut left = k;
    // Kept: a part says how long it is, so a step is no one place.
    while 4 <= args.len() - at {
        let m = read_u32(args, at) as usize;
        let from = at + 4;
        let mut to = args.len();
        if m <= to - from {
            to = from + m;
        }
        if left == 0 {
            return Part { from: from, to: to };
        }
        at = to;
        left -= 1;
    }
    Part { from: 0, to: 0 }
}

// The call with this code; its arguments are the first of these.
#[tactic(auto, using(crate::proofs::Codes::of_lists, crate::proofs::Codes::of_values, crate::proofs::Codes::of_simplify, crate::proofs::Codes::of_added))]
fn call(code: u32, a: &[u8], b: &[u8], c: &[u8], out: &mut [u8]) -> Reply
    ensures { Replied out.old ((call_of code).answer a.now b.now c.now) result out.new }
{
    if codelists::arity(code) != 0 {
        return codelists::call(code, a, b, c, out);
    }
    if codevalues::arity(code) != 0 {
        return codevalues::call(code, a, b, c, out);
    }
    if codesimplify::arity(code) != 0 {
        return codesimplify::call(code, a, b, c, out);
    }
    codeadded::call(code, a, b, c, out)
}

// Answers the request with this code and these bytes behind it.
#[tactic(auto, unfolding(crate::specs::Stream::answer_to))]
pub fn answer(code: u32, args: &[u8], out: &mut [u8]) -> Reply
    ensures { Replied out.old (spec.answer_to code args.now) result out.new }
{
    let p = part_at(args, 0);
    let q = part_at(args, 1);
    let r = part_at(args, 2);
    let a = p.from;
    let b = p.to;
    let c = q.from;
    let d = q.to;
    let e = r.from;
    let f = r.to;
    call(code, &args[a..b], &args[c..d], &args[e..f], out)
}

// ---- many requests

// Writes the answer to a request from place o on, and tells where it ends.
#[tactic(auto, using(crate::proofs::Answering::reply_short))]
fn one(code: u32, args: &[u8], out: &mut [u8], o: usize) -> usize
    requires { o + spec.place ≤ length out.old }
    ensures { (result ≡ o + length (spec.answer_bytes (spec.answered code args.now))) × (result ≤ o + spec.place) × (out.new ≡ take o out.old ++ (spec.answer_bytes (spec.answered code args.now) ++ drop result out.old)) }
{
    let body = o + 8;
    let end = o + PLACE;
    let r = answer(code, args, &mut out[body..end]);
    let len = r.unwrap_or(0);
    write_u32(out, o, replies::number_of(r));
    write_u32(out, o + 4, len as u32);
    body + len
}

// How the request whose code stands at this place lies.
#[tactic(auto, unfolding(crate::specs::Stream::next))]
fn next_at(s: &[u8], at: usize) -> Frame
    requires { at ≤ length s.now }
    ensures { result ≡ spec.next s.now at }
{
    if s.len() - at < 4 {
        return Frame::Short;
    }
    framed(read_u32(s, at), s, at + 4)
}

// Answers the requests at the start of inp, one behind the other, until one is not whole or out has no room for one
// more answer.
#[tactic(auto, using(crate::proofs::Frames::whole_inside, crate::proofs::Answering::all_answered))]
pub fn feed(inp: &[u8], out: &mut [u8]) -> Fed
    ensures { spec.Feeds inp.now out.old result out.new }
{
    let mut at: usize = 0;
    let mut o: usize = 0;
    let mut n: usize = 0;
    let mut next = next_at(inp, at);
    while let Frame::Whole(to) = next {
        if out.len() - o < PLACE {
            break;
        }
        let code = read_u32(inp, at);
        o = one(code, &inp[at + 4..to], out, o);
        at = to;
        n += 1;
        next = next_at(inp, at);
    }
    Fed {
        count: n,
        used: at,
        wrote: o,
        next,
    }
}
