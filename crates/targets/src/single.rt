// One factor to a whole exponent (01, "Simplification", second step).
ghost use Rattle.std.specs.Prelude.{◌≡◌, List, [], ◌∷◌};
ghost use Rattle.exponents.specs.Outcome.{Ok};
ghost use Rattle.exponents.specs.declared.Exponent.{Exponent as Exponentᵛ};
ghost use Rattle.units.specs.declared.Factor.{Factor as Factorᵛ};
ghost use Rattle.tables.specs.Lists.{base};
ghost use Rattle.tables.specs.Held.{pack_exps, View, view_bases, packed, Resolved, LendsIn};
ghost use Rattle.canonical.specs.Held.{form_of};
ghost use Rattle.targets.specs.Held.{listed};
ghost use Rattle.targets.specs.Single.{search};

use exponents::Exponent;
use exponents::refusals::Refusal;
use reduction::{bases, multiples};
use tables::pages::Bases;
use tables::{Item, Items};

// The list of one item.
#[tactic(auto, unfolding(tables::specs::Held::packed))]
pub fn alone(it: Item) -> Items
    ensures { result ≡ packed (it ∷ []) }
{
    let mut l = tables::no_items();
    l.at[0] = it;
    l.len = 1;
    l
}

// The list of the item that was found, if one was.
fn listed(found: Option<Item>) -> Items
    ensures { result ≡ packed (listed found) }
{
    match found {
        Some(it) => alone(it),
        None => tables::no_items(),
    }
}

// The first factor of the canonical list c that c is a whole power of, raised to it; the empty list where there is none. c has the
// base exponents x at the first n base rows. What leaves the range beats none: every product of a factor is worked out.
pub fn first_multiple(c: Items, x: [Exponent; 16], n: usize, bases: Bases) -> Result<Items, Refusal>
    ensures { (v : View) (cs : List Factorᵛ) (xs : List Exponentᵛ) → LendsIn v n bases.entry → Resolved v c cs → x ≡ pack_exps xs → base (view_bases v n) cs ≡ Ok xs → result ≡ form_of v (search (view_bases v n) cs cs) }
{
    let k = multiples::first_base(x);
    let none = Exponent { num: 0, den: 1 };
    let one = Exponent { num: 1, den: 1 };
    let mut found = None;
    'factors: for i in 0..bases::capped(c.len) {
        let it = super::at_exponent(c.at[i], one);
        let y = bases::base_of_item(it, n, bases)?;
        if bases::same_exponents(x, y) {
            found = Some(it);
            break 'factors;
        }
        if k < 16 {
            let q = y[k];
            if !exponents::same(q, none) {
                let w = exponents::quotient(x[k], q)?;
                let mut all = true;
                for s in 0..16 {
                    let e = multiples::multiplied(y[s], w)?;
                    all = all & exponents::same(e, x[s]);
                    if (s == 15) & all & (w.den == 1) {
                        found = Some(super::at_exponent(it, w));
                        break 'factors;
                    }
                }
            }
        }
    }
    Ok(listed(found))
}
