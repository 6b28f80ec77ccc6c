// Answers a stream of requests: reads them from standard input until it ends, and writes the answers in order.
#![tactic(auto)]

ghost use Rattle.std.specs.Prelude.{◌≡◌, ◌+◌, ◌≤◌, length};

use inflow::Held;
use std::io::Read;
use stream::Frame;

fn ended() -> Held
    ensures { (result.at ≡ 0) × (result.end ≡ 0) }
{
    Held {
        at: 0,
        end: 0,
        live: false,
    }
}

// The request at hand ends the stream.
fn broken(rt: &impl Print) -> Held
    ensures { (result.at ≡ 0) × (result.end ≡ 0) }
{
    let _ = rt.write_all(b"\xff\xff\xff\xff");
    ended()
}

// Reads more where no request is whole. A request that the input's end cuts short ends the stream.
fn more<R: Read>(rt: &impl Print, input: &mut R, inp: &mut [u8], at: usize, end: usize) -> Held
    requires { (at ≤ end) × (end ≤ length inp.old) }
    ensures { (result.at ≤ result.end) × (result.end ≤ length inp.old) }
{
    let h = inflow::refill(input, inp, at, end);
    if h.live {
        return h;
    }
    if h.end == 0 {
        return ended();
    }
    broken(rt)
}

// One turn: answers what is whole and writes the answers, then reads more where the next request isn't whole.
fn turn<R: Read>(
    rt: &impl Print,
    input: &mut R,
    inp: &mut [u8],
    out: &mut [u8],
    at: usize,
    end: usize,
) -> Held
    requires { (at ≤ end) × (end ≤ length inp.old) }
    ensures { (result.at ≤ result.end) × (result.end ≤ length inp.old) }
{
    let f = stream::feed(&inp[at..end], out);
    let n = f.wrote;
    if rt.write_all(&out[0..n]).is_err() {
        return ended();
    }
    match f.next {
        Frame::Bad => broken(rt),
        Frame::Short => more(rt, input, inp, at + f.used, end),
        Frame::Whole(_) => Held {
            at: at + f.used,
            end,
            live: true,
        },
    }
}

// A proved loop has to end, and nothing says that the input does. So the loop has a number of turns that no run uses up.
fn serve<R: Read>(rt: &impl Print, input: &mut R, inp: &mut [u8], out: &mut [u8]) {
    let mut s = Held {
        at: 0,
        end: 0,
        live: true,
    };
    for _ in 0..u64::MAX {
        if !s.live {
            return;
        }
        s = turn(rt, input, inp, out, s.at, s.end);
    }
}

fn main(rt: HostRuntime) {
    let mut inp = inflow::space();
    let mut out = inflow::space();
    serve(&rt, &mut rt.stdin(), &mut inp, &mut out);
}
