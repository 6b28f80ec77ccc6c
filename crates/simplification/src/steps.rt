// The three steps of simplification on a resolved list (01, "Simplification"). Only UNITS lets a step be followed by the next: other refusals are answered at once.
ghost use Rattle.std.specs.Prelude.{◌≡◌, List, [], ◌+◌, ◌≤◌, ◌<◌, IfOk};
ghost use Rattle.units.specs.declared.Factor.{Factor as Factorᵛ};
ghost use Rattle.tables.specs.Held.{View, rules_by, LendsIn, Resolved};
ghost use Rattle.simplification.specs.Steps as spec;
ghost use Rattle.simplification.specs.Held.{Grows, handed, with_group};

use canonical::form;
use conversion::convert;
use exponents::refusals::Refusal;
use reduction::bases;
use tables::Items;
use tables::pages::Bases;
use targets::{groups, single};
use units::Quantity;
use values::answers;

// ---- third step

// The groups before place `next`: their targets joined, and the product of 1 of each converted.
#[derive(Clone, Copy, Drop)]
pub struct Progress {
    pub unit: Items,
    pub factor: f64,
    pub next: usize,
}

// One group more, the one that starts at `next`: its target, then its conversion.
fn with_group(p: Progress, c: Items, n: usize, bases: Bases) -> Result<Progress, Refusal>
    requires { p.next < 16 }
    ensures rises { IfOk result (λ q. (p.next < q.next) × (q.next ≤ 32)) }
    ensures value { (v : View) (us cs : List Factorᵛ) → LendsIn v n bases.entry → Grows v p c us cs → result ≡ with_group v n p us cs }
{
    let i = p.next;
    let g = groups::group_at(c, i);
    let m = groups::target_of(g, n, bases)?;
    let z = convert::convert(1.0, g, m, n, bases)?;
    Ok(Progress {
        unit: groups::joined(p.unit, m),
        factor: p.factor * z,
        next: i + g.len,
    })
}

// x of the canonical list c, group by group.
fn by_groups(x: f64, c: Items, n: usize, bases: Bases) -> Result<Quantity, Refusal>
    ensures { (v : View) (cs : List Factorᵛ) → LendsIn v n bases.entry → Resolved v c cs → result ≡ handed (spec.by_groups (rules_by v n) x cs) }
{
    let m = bases::capped(c.len);
    let mut p = Progress {
        unit: tables::no_items(),
        factor: 1.0,
        next: 0,
    };
    // Kept: a turn takes a whole group, so how far it goes is the group's to say.
    while p.next < m {
        p = with_group(p, c, n, bases)?;
    }
    let w = form::merged(p.unit)?;
    let l = lists::opening::factors_of(w);
    Ok(answers::with_mark(x * p.factor, l, true))
}

// ---- second step

// x of the list l, whose canonical form is c, to the one factor of t; to the groups of c where t is empty.
#[tactic(auto, using(crate::proofs::Stepping::toward_nothing, crate::proofs::Stepping::toward_one, crate::proofs::Stepping::attempt_given, crate::proofs::Stepping::attempt_units, canonical::proofs::Seen::len_items))]
fn toward(x: f64, l: Items, t: Items, c: Items, n: usize, bases: Bases) -> Result<Quantity, Refusal>
    ensures { (v : View) (fs ms cs : List Factorᵛ) → LendsIn v n bases.entry → Resolved v l fs → Resolved v t ms → Resolved v c cs → result ≡ handed (spec.toward (rules_by v n) x fs ms (spec.by_groups (rules_by v n) x cs)) }
{
    if t.len == 0 {
        return by_groups(x, c, n, bases);
    }
    match convert::convert(x, l, t, n, bases) {
        Ok(z) => Ok(answers::with_mark(z, lists::opening::factors_of(t), true)),
        Err(why) => match why {
            Refusal::Units => by_groups(x, c, n, bases),
            _ => Err(why),
        },
    }
}

// What follows the conversion to scalar.
fn further(x: f64, l: Items, n: usize, bases: Bases) -> Result<Quantity, Refusal>
    ensures { (v : View) (fs : List Factorᵛ) → LendsIn v n bases.entry → Resolved v l fs → result ≡ handed (spec.further (rules_by v n) x fs) }
{
    let c = form::canonical(l)?;
    if c.len < 2 {
        return by_groups(x, c, n, bases);
    }
    let e = bases::base_of(c, n, bases)?;
    let t = single::first_multiple(c, e, n, bases)?;
    toward(x, l, t, c, n, bases)
}

// ---- first step

// x of the list l, where the mark permits simplifying and there are n base rows.
#[tactic(auto, unfolding(crate::specs::Steps::simplify), using(crate::proofs::Stepping::attempt_given, crate::proofs::Stepping::attempt_units, tables::proofs::Resolved::none_resolved))]
pub fn simplified(x: f64, l: Items, n: usize, bases: Bases) -> Result<Quantity, Refusal>
    ensures { (v : View) (fs : List Factorᵛ) → LendsIn v n bases.entry → Resolved v l fs → result ≡ handed (spec.simplify (rules_by v n) x fs) }
{
    let scalar = tables::no_items();
    match convert::convert(x, l, scalar, n, bases) {
        Ok(z) => Ok(answers::with_mark(z, units::lists::empty(), true)),
        Err(why) => match why {
            Refusal::Units => further(x, l, n, bases),
            _ => Err(why),
        },
    }
}
