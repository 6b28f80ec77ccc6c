// Any bytes as a call's arguments: bytes of the wrong length read as a record that breaks its rule, so that the call
// refuses them where it refuses such a record.
ghost use Rattle.std.specs.Prelude.{◌≡◌, ◌<◌};
ghost use Rattle.wire.specs.Arguments.{bad_list, prefix_from, exponent_from, list_from, quantity_from, many_in, candidates_from};

use super::reading;
use exponents::Exponent;
use units::{Candidates, Factors, Prefix, Quantity};

#[tactic(auto, unfolding(crate::specs::Arguments::prefix_from))]
pub fn prefix(s: &[u8]) -> Prefix
    ensures { result ≡ prefix_from s.now }
{
    if s.len() == 8 {
        return reading::read_prefix(s, 0);
    }
    Prefix::Metric(2000)
}

#[tactic(auto, unfolding(crate::specs::Arguments::exponent_from))]
pub fn exponent(s: &[u8]) -> Exponent
    ensures { result ≡ exponent_from s.now }
{
    if s.len() == 8 {
        return reading::read_exponent(s, 0);
    }
    Exponent { num: 0, den: 0 }
}

pub fn bad_list() -> Factors
    ensures { result ≡ bad_list }
{
    let none = units::lists::no_factor();
    Factors {
        at: [none; 16],
        len: 17,
    }
}

#[tactic(auto, unfolding(crate::specs::Arguments::list_from))]
pub fn list(s: &[u8]) -> Factors
    ensures { result ≡ list_from s.now }
{
    if s.len() == 324 {
        return reading::read_list(s, 0);
    }
    bad_list()
}

#[tactic(auto, unfolding(crate::specs::Arguments::quantity_from))]
pub fn quantity(s: &[u8]) -> Quantity
    ensures { result ≡ quantity_from s.now }
{
    if s.len() == 336 {
        return reading::read_quantity(s, 0);
    }
    let unit = bad_list();
    Quantity {
        unit,
        value: 0.0,
        mark: false,
    }
}

// How many records of so many bytes; one more than the most where they are no whole number.
#[tactic(auto, unfolding(crate::specs::Arguments::many_in))]
pub fn many(len: usize, size: usize, most: usize) -> usize
    requires { (0 < size) × (most < 1000) }
    ensures { result ≡ many_in size most len }
{
    if len % size == 0 {
        return len / size;
    }
    most + 1
}

#[tactic(auto, using(crate::proofs::Runs::places_none, crate::proofs::Runs::places_turn), unfolding(crate::specs::Arguments::candidates_from))]
pub fn candidates(s: &[u8]) -> Candidates
    ensures { result ≡ candidates_from s.now }
{
    let len = many(s.len(), 328, 32);
    let n = reading::count(32, len);
    let none = lent::no_candidate();
    let mut at = [none; 32];
    for i in 0..n {
        at[i] = reading::read_candidate(s, i * 328);
    }
    Candidates { at, len }
}
