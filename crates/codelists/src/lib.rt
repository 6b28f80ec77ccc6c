// By their codes, the calls on lists, and the prefix factor: how many arguments each has, and the call itself.
#![tactic(auto)]

ghost use Rattle.std.specs.Prelude.{◌≡◌, ◌≤◌};
ghost use Rattle.replies.specs.Held.{Replied};
ghost use Rattle.codes.specs.Codes.{look};
ghost use Rattle.codelists.specs.Calls.{calls};

use exponents::refusals::Refusal;
use replies::Reply;

// Kept: the byte form numbers its calls; an enum of them would be made from the number and matched once more, to the same arms.
// How many arguments the call with this code has: 0 for none of these.
#[tactic(auto, unfolding(codes::specs::Codes::look, crate::specs::Calls::calls))]
pub fn arity(code: u32) -> u32
    ensures { (result ≡ (look calls code).arity) × (result ≤ 3) }
{
    match code {
        1 => 1,
        5 | 7 => 2,
        2 | 3 | 4 | 6 | 19 | 20 => 3,
        _ => 0,
    }
}

// The call with this code; its arguments are the first of these.
#[tactic(auto, unfolding(codes::specs::Codes::look, crate::specs::Calls::calls, exponents::specs::Outcome::bind, replies::specs::Replies::sent))]
pub fn call(code: u32, a: &[u8], b: &[u8], c: &[u8], out: &mut [u8]) -> Reply
    ensures { Replied out.old ((look calls code).answer a.now b.now c.now) result out.new }
{
    match code {
        1 => asklists::prefix_factor(a, out),
        2 => asklists::product(a, b, c, out),
        3 => asklists::quotient(a, b, c, out),
        4 => asklists::list_power(a, b, c, out),
        5 => asklists::canonical(a, b, out),
        6 => asklists::same_list(a, b, c, out),
        7 => asklists::reduce_list(a, b, out),
        19 => asklists::smaller_unit(a, b, c, out),
        20 => asklists::is_multiple_of(a, b, c, out),
        _ => Err(Refusal::Shape),
    }
}
