// By their codes, the calls on quantities: how many arguments each has, and the call itself.
#![tactic(auto)]

ghost use Rattle.std.specs.Prelude.{◌≡◌, ◌≤◌};
ghost use Rattle.replies.specs.Held.{Replied};
ghost use Rattle.codes.specs.Codes.{look};
ghost use Rattle.codevalues.specs.Calls.{calls};

use exponents::refusals::Refusal;
use replies::Reply;

// Kept: the byte form numbers its calls; an enum of them would be made from the number and matched once more, to the same arms.
// How many arguments the call with this code has: 0 for none of these.
#[tactic(auto, unfolding(codes::specs::Codes::look, crate::specs::Calls::calls))]
pub fn arity(code: u32) -> u32
    ensures { (result ≡ (look calls code).arity) × (result ≤ 3) }
{
    match code {
        8 | 15 | 16 | 23 => 2,
        9 | 10 | 11 | 12 | 13 | 14 | 17 | 18 => 3,
        _ => 0,
    }
}

// The call with this code; its arguments are the first of these.
#[tactic(auto, unfolding(codes::specs::Codes::look, crate::specs::Calls::calls, exponents::specs::Outcome::bind, replies::specs::Replies::sent))]
pub fn call(code: u32, a: &[u8], b: &[u8], c: &[u8], out: &mut [u8]) -> Reply
    ensures { Replied out.old ((look calls code).answer a.now b.now c.now) result out.new }
{
    match code {
        8 => askvalues::reduce(a, b, out),
        9 => askvalues::convert_to(a, b, c, out),
        10 => askvalues::add(a, b, c, out),
        11 => askvalues::subtract(a, b, c, out),
        12 => askvalues::multiply(a, b, c, out),
        13 => askvalues::checked_div(a, b, c, out),
        14 => askvalues::checked_power(a, b, c, out),
        15 => askvalues::negate(a, b, out),
        16 => askvalues::abs(a, b, out),
        17 => askvalues::equal(a, b, c, out),
        18 => askvalues::compare(a, b, c, out),
        23 => askvalues::no_simplify(a, b, out),
        _ => Err(Refusal::Shape),
    }
}
