// A buffer over a reader: what was read and not used lies from `at` to `end`.
#![tactic(auto)]

ghost use Rattle.std.specs.Prelude.{◌≡◌, ◌-◌, ◌≤◌, length};
ghost use Rattle.std.specs.Io.KnownBytes.{Consumes};
ghost use Rattle.inflow.specs.Inflow.{fresh, Refilled};

use std::io::Read;

#[derive(Clone, Copy, Drop)]
pub struct Held {
    pub at: usize,
    pub end: usize,
    // Whether there may be more: false once the input has ended.
    pub live: bool,
}

// 524,288 zeros: more than the longest request, 393,232 bytes (its code, Knots of 262,144 bytes and two arguments of
// 65,536, each behind its length), and than its record with the longest answer behind it, 415,776 bytes.
pub fn space() -> [u8; 524288]
    ensures { 524288 ≡ length result }
{
    [0; 524288]
}

// Moves the `end - at` bytes that are left to the front, and reads more behind them, once, as the source gives them. A
// read that fails counts as one that finds nothing.
pub fn refill<R: Read>(source: &mut R, inp: &mut [u8], at: usize, end: usize) -> Held
    requires { (at ≤ end) × (end ≤ length inp.old) }
    ensures refilled { Refilled inp.old at end result inp.new }
    ensures bytes { Consumes (R.remaining source.old) (R.remaining source.new) (fresh at end result inp.new) }
{
    inp.copy_within(at..end, 0);
    let have = end - at;
    let n = source.read(&mut inp[have..]).unwrap_or(0);
    Held {
        at: 0,
        end: have + n,
        live: n != 0,
    }
}
