// Compares the records of each file that its arguments name, and prints for each how many it compared, how many differ,
// and the first that does.
#![tactic(auto)]

ghost use Rattle.std.specs.Prelude.{◌+◌, ◌≤◌, length};

use inflow::Held;
use recorded::Tally;
use std::env::{Env, FillError};
use std::fs::Files;
use std::io::Read;
use std::{fs, io, str};

mod recorded; // records compared with the answers of the calls

#[derive(Clone, Copy, Drop)]
struct Both {
    h: Held,
    t: Tally,
}

fn turn<R: Read>(source: &mut R, inp: &mut [u8], out: &mut [u8], h: Held, t: Tally) -> Both
    requires { (h.at ≤ h.end) × (h.end ≤ length inp.old) }
    ensures { (result.h.at ≤ result.h.end) × (result.h.end ≤ length inp.old) }
{
    let at = h.at;
    let end = h.end;
    let u = recorded::compare(&inp[at..end], out, t);
    if u.bad {
        let k = Held {
            at: at,
            end: end,
            live: false,
        };
        return Both { h: k, t: u };
    }
    if u.used == 0 {
        let k = inflow::refill(source, inp, at, end);
        return Both { h: k, t: u };
    }
    let k = Held {
        at: at + u.used,
        end: end,
        live: true,
    };
    Both { h: k, t: u }
}

fn say(rt: &impl Print, b: Both) -> io::Result<()> {
    let compared = b.t.compared;
    let differ = b.t.differ;
    print!(rt; "{compared} compared, {differ} differ")?;
    if differ != 0 {
        let first = b.t.first;
        print!(rt; ", first {first}")?;
    }
    if b.h.at != b.h.end {
        print!(rt; ", then no record")?;
    }
    println!(rt)
}

fn replay<R: Read>(source: &mut R, inp: &mut [u8], out: &mut [u8]) -> Both {
    let h = Held {
        at: 0,
        end: 0,
        live: true,
    };
    let t = Tally {
        used: 0,
        compared: 0,
        differ: 0,
        first: 0,
        bad: false,
    };
    let mut b = Both { h: h, t: t };
    for _ in 0..u64::MAX {
        if !b.h.live {
            return b;
        }
        b = turn(source, inp, out, b.h, b.t);
    }
    b
}

// The file with this name, if it is there to be read.
fn opened<R: Files>(rt: &R, path: &[u8]) -> Option<R::File> {
    match str::from_utf8(path) {
        Ok(name) => fs::open(rt, name).ok(),
        Err(_) => None,
    }
}

fn file<R: Files + Print>(rt: &R, path: &[u8], inp: &mut [u8], out: &mut [u8]) -> io::Result<()> {
    rt.write_all(path)?;
    print!(rt; ": ")?;
    match opened(rt, path) {
        Some(mut source) => say(rt, replay(&mut source, inp, out)),
        None => println!(rt; "cannot be opened"),
    }
}

// An argument that is longer than any path counts as an empty one.
fn files<R: Env + Files + Print>(rt: &R, inp: &mut [u8], out: &mut [u8]) -> io::Result<()> {
    let mut path = [0u8; 4096];
    for k in 1..usize::MAX {
        let n = match rt.arg(k, &mut path) {
            Ok(n) => n,
            Err(FillError::TooLong) => 0,
            Err(FillError::NotPresent) => break,
        };
        file(rt, &path[..n], inp, out)?;
    }
    Ok(())
}

fn main(rt: HostRuntime) -> io::Result<()> {
    let mut inp = inflow::space();
    let mut out = [0u8; stream::LONGEST];
    files(&rt, &mut inp, &mut out)
}
