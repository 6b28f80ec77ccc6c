// By their codes, the calls that 02 adds: how many arguments each has, and the call itself.
#![tactic(auto)]

ghost use Rattle.std.specs.Prelude.{◌≡◌, ◌≤◌};
ghost use Rattle.replies.specs.Held.{Replied};
ghost use Rattle.codes.specs.Codes.{look};
ghost use Rattle.codeadded.specs.Calls.{calls};

use exponents::refusals::Refusal;
use replies::Reply;
use wiretables::word;

// Kept: the byte form numbers its calls; an enum of them would be made from the number and matched once more, to the same arms.
// How many arguments the call with this code has: 0 for none of these.
#[tactic(auto, unfolding(codes::specs::Codes::look, crate::specs::Calls::calls))]
pub fn arity(code: u32) -> u32
    ensures { (result ≡ (look calls code).arity) × (result ≤ 3) }
{
    match code {
        24 | 25 | 26 => 2,
        27 | 28 | 29 | 30 | 31 => 3,
        _ => 0,
    }
}

// The call with this code; its arguments are the first of these.
#[tactic(auto, unfolding(codes::specs::Codes::look, crate::specs::Calls::calls, exponents::specs::Outcome::bind, replies::specs::Replies::sent))]
pub fn call(code: u32, a: &[u8], b: &[u8], c: &[u8], out: &mut [u8]) -> Reply
    ensures { Replied out.old ((look calls code).answer a.now b.now c.now) result out.new }
{
    match code {
        24 => askfiles::write_table(a, word(b) as usize, out),
        25 => askfiles::read_table(a, word(b) as usize, out),
        26 => askfiles::salvage_table(a, word(b) as usize, out),
        27 => askconversions::convert_merged(a, b, c, out),
        28 => askknots::knot_vector(a, b, c, out),
        29 => askknots::span_quotient(a, b, c, out),
        30 => askcounted::convert_to_counted(a, b, c, out),
        31 => askcounted::convert_merged_counted(a, b, c, out),
        _ => Err(Refusal::Shape),
    }
}
