// Equality of lists by their canonical forms (01, "Canonical form").
ghost use Rattle.std.specs.Prelude.{◌≡◌, List};
ghost use Rattle.units.specs.declared.Factor.{Factor as Factorᵛ};
ghost use Rattle.tables.specs.Held.{View, Resolved};
ghost use Rattle.canonical.specs.Equality as spec;

use super::form;
use exponents::refusals::Refusal;
use tables::Items;

#[tactic(auto, using(crate::proofs::Judged::canon_formed, crate::proofs::Judged::unformed), unfolding(crate::specs::Equality::equal, exponents::specs::Outcome::bind))]
pub fn equal(a: Items, b: Items) -> Result<bool, Refusal>
    ensures { (v : View) (fs gs : List Factorᵛ) → Resolved v a fs → Resolved v b gs → result ≡ spec.equal v.order fs gs }
{
    let c = form::canonical(a)?;
    let d = form::canonical(b)?;
    Ok(form::same(c, d))
}
