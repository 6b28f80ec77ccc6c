// The calls on knots over lent rows.
#![tactic(auto)]

ghost use Rattle.std.specs.Prelude.{◌≡◌};
ghost use Rattle.lent.specs.Lent.{lent_rows_lem};
ghost use Rattle.knots.specs.Calls.{knots_in, span_quotient};
ghost use Rattle.knots.specs.Held.{Vectored};

use exponents::refusals::Refusal;
use knots::{Rule, Span};
use units::Row;

// A refusal leaves the lent places as they are.
pub fn knot_vector(
    rows: &[Row],
    knots: &[u8],
    rule: Rule,
    firsts: &mut [f64],
    times: &mut [u32],
) -> Result<usize, Refusal>
    ensures { Vectored (lent_rows_lem rows.now) knots.now rule result firsts.old firsts.new times.old times.new }
{
    knots::knot_vector(lent::rows_of(rows), knots, rule, firsts, times)
}

pub fn span_quotient(rows: &[Row], knots: &[u8], span: Span) -> Result<f64, Refusal>
    ensures { result ≡ span_quotient (lent_rows_lem rows.now) (knots_in knots.now) span }
{
    knots::span_quotient(lent::rows_of(rows), knots, span)
}
