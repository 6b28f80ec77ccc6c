// The calls on knot vectors over lent bytes: the table, the knots, the rule, then the room for the answer.
// Kept: the C interface: a function for each call, with numbers for its refusals.
ghost use Rattle.askknots.specs.Calls as spec;
ghost use Rattle.demsharin.specs.Exports.{Exported};

#[tactic(auto, using(crate::proofs::Exporting::number_is))]
pub fn demsharin_knot_vector(table: &[u8], knots: &[u8], rule: &[u8], out: &mut [u8]) -> u32
    ensures { Exported out.old (spec.knot_vector table.now knots.now rule.now) result out.new }
{
    replies::number_of(askknots::knot_vector(table, knots, rule, out))
}

#[tactic(auto, using(crate::proofs::Exporting::number_is))]
pub fn demsharin_span_quotient(table: &[u8], knots: &[u8], rule: &[u8], out: &mut [u8]) -> u32
    ensures { Exported out.old (spec.span_quotient table.now knots.now rule.now) result out.new }
{
    replies::number_of(askknots::span_quotient(table, knots, rule, out))
}
