// Compares recorded answers with those of the calls. A record is a request and, right behind it, the answer that was
// seen elsewhere, in the form of the stream.
ghost use Rattle.std.specs.Prelude.{◌≡◌, ◌+◌, ◌≤◌, length};

use stream::Frame;
use wire::numbers::read_u32;

#[derive(Clone, Copy, Drop)]
pub struct Tally {
    // How many bytes of the input were used up.
    pub used: usize,
    pub compared: u64,
    pub differ: u64,
    // The index of the first that differs, where one does.
    pub first: u64,
    // Whether what follows is no record.
    pub bad: bool,
}

// Whether the answer to the request is the one in `want`: its refusal, its length and its bytes.
#[tactic(auto, using(stream::proofs::Answering::reply_within))]
fn agrees(code: u32, args: &[u8], want: &[u8], out: &mut [u8]) -> bool {
    if want.len() < 8 {
        return false;
    }
    let r = stream::answer(code, args, out);
    if replies::number_of(r) != read_u32(want, 0) {
        return false;
    }
    let n = r.unwrap_or(0);
    check::same(&out[0..n], &want[8..])
}

// Where the answer that starts at `from` ends: past the end of s where it is not whole.
fn answer_end(s: &[u8], from: usize) -> usize
    requires { from ≤ length s.now }
    ensures { from ≤ result }
{
    if s.len() - from < 8 {
        return s.len() + 1;
    }
    from + 8 + read_u32(s, from + 4) as usize
}

fn counted(t: Tally, used: usize, same: bool) -> Tally
    ensures { result.used ≡ used }
{
    let one = std::num::wrapping_add_u64(t.compared, 1);
    if same {
        return Tally {
            used: used,
            compared: one,
            differ: t.differ,
            first: t.first,
            bad: false,
        };
    }
    let d = std::num::wrapping_add_u64(t.differ, 1);
    if t.differ == 0 {
        return Tally {
            used: used,
            compared: one,
            differ: d,
            first: t.compared,
            bad: false,
        };
    }
    Tally {
        used: used,
        compared: one,
        differ: d,
        first: t.first,
        bad: false,
    }
}

fn stopped(t: Tally, used: usize, bad: bool) -> Tally
    ensures { result.used ≡ used }
{
    Tally {
        used: used,
        compared: t.compared,
        differ: t.differ,
        first: t.first,
        bad: bad,
    }
}

// Compares the records at the start of s, until one is not whole.
#[tactic(auto, using(stream::proofs::Frames::whole_within))]
pub fn compare(s: &[u8], out: &mut [u8], seen: Tally) -> Tally
    ensures { result.used ≤ length s.now }
{
    let mut t = stopped(seen, 0, false);
    let mut at: usize = 0;
    // Kept: a record says how long it is, so a step is no one place.
    while 4 <= s.len() - at {
        let code = read_u32(s, at);
        let from = at + 4;
        let f = stream::framed(code, s, from);
        let Frame::Whole(to) = f else {
            return stopped(t, at, f == Frame::Bad);
        };
        let end = answer_end(s, to);
        if s.len() < end {
            return stopped(t, at, false);
        }
        let same = agrees(code, &s[from..to], &s[to..end], out);
        t = counted(t, end, same);
        at = end;
    }
    stopped(t, at, false)
}
