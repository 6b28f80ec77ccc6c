// The registry form of simplification (01, "Simplification"): for two or more factors left, the single base unit, then the candidates given.
// Public: `full_simplify_with`, and its half `full_simplify_with_over` for a table that is admitted already. Neither asks anything of its caller.
#![tactic(auto)]

ghost use Rattle.std.specs.Prelude.{◌≡◌, List, ℕ, ◌≤◌, length};
ghost use Rattle.exponents.specs.Outcome.{Ok, tested};
ghost use Rattle.units.specs.declared.Factor.{Factor as Factorᵛ};
ghost use Rattle.units.specs.declared.Rows.{Rows as Rowsᵛ};
ghost use Rattle.units.specs.Lists.{checked, pack};
ghost use Rattle.tables.specs.Rows.{Facts, base_rows};
ghost use Rattle.tables.specs.Held.{Sized, Basic, pack_items, AdmitsIn};
ghost use Rattle.conversion.specs.Conversion as conversions;
ghost use Rattle.values.specs.Quantities.{fresh};
ghost use Rattle.simplification.specs.Held.{handed};
ghost use Rattle.simplification.specs.Steps.{Amount, quantity_of};
ghost use Rattle.registry.specs.Registry as spec;
ghost use Rattle.registry.specs.Held.{plain_view, Table, rules_of, StoredIn, Checks, Offers, Left, BaseExps, choice_of};
ghost use Rattle.registry.specs.Calls as calls;

use exponents::Exponent;
use exponents::refusals::Refusal;
use reduction::{bases, reduce};
use tables::pages::{Bases, Columns};
use tables::{Admitted, Item, Items, Rejected};
use units::{Candidates, Factors, Quantity, Rows};
use values::answers;

// ---- the candidates given

// What the candidates are refused for: their number, then of each its rank and its list.
#[tactic(auto, unfolding(crate::specs::Registry::candidate_lists, exponents::specs::Outcome::unless, exponents::specs::Outcome::bind), using(exponents::proofs::Taking::take_step_of, exponents::proofs::Taking::take_end_of, crate::proofs::GivenLists::none_left, crate::proofs::GivenLists::too_low, crate::proofs::GivenLists::in_order))]
fn check_candidates(rows: usize, c: Candidates) -> Result<(), Refusal>
    ensures { result ≡ tested (spec.candidate_lists rows c) }
{
    let n = c.len;
    if 32 < n {
        return Err(Refusal::Shape);
    }
    let mut least: u32 = 0;
    for i in 0..n {
        let x = c.at[i];
        let rank = x.rank as u32;
        if rank < least {
            return Err(Refusal::Shape);
        }
        units::lists::check_list(rows, x.unit)?;
        least = rank + 1;
    }
    Ok(())
}

// A checked list with what is known of its rows, but for their order: enough for base exponents and scale.
fn plain(columns: &Columns, l: Factors) -> Items
    ensures { (ks : List Facts) (fs : List Factorᵛ) → length ks ≤ 128 → Sized ks columns.now.scales → Basic ks columns.now.based → checked (length ks) l ≡ Ok fs → result ≡ pack_items (plain_view ks fs) fs }
{
    let n = bases::capped(l.len);
    let mut o = tables::no_items();
    for i in 0..n {
        let f = l.at[i];
        let row = f.row as usize;
        if 128 <= row {
            return tables::no_items();
        }
        o.at[i] = Item {
            factor: f,
            scale: columns.scales[row],
            place: 0,
            class: 0,
            base: columns.based[row],
        };
        o.len = i + 1;
    }
    o
}

// ---- scales compared

#[tactic(auto, unfolding(crate::specs::Registry::near_one))]
fn near_one(s: f64) -> bool
    ensures { result ≡ spec.near_one s }
{
    floats::abs(s - 1.0) < 1e-9
}

// The larger of two, a NaN passed over.
// Kept: of two zeros std's max may give either.
#[tactic(auto, unfolding(crate::specs::Registry::larger))]
fn larger(x: f64, y: f64) -> f64
    ensures { result ≡ spec.larger x y }
{
    if floats::is_nan(x) {
        return y;
    }
    if floats::is_nan(y) | (y < x) { x } else { y }
}

// Whether the difference is strictly below 1e-9 of the larger magnitude, or that magnitude is zero.
#[tactic(auto, unfolding(crate::specs::Registry::close))]
fn close(s: f64, t: f64) -> bool
    ensures { result ≡ spec.close s t }
{
    let m = larger(floats::abs(s), floats::abs(t));
    floats::is_zero(m) | (floats::abs(s - t) < 1e-9 * m)
}

// ---- the candidates tested

// Whether the list m has fewer factors than `most`, the base exponents xs and the scale s.
fn fits(
    n: usize,
    columns: &Columns,
    m: Factors,
    most: usize,
    xs: [Exponent; 16],
    s: f64,
) -> Result<bool, Refusal>
    ensures { (tb : Table) (len : ℕ) (k : Checks tb m) (x : BaseExps tb xs) → StoredIn tb len n columns.now → result ≡ spec.fitting (rules_of tb) most x.exps s k.factors }
{
    if most <= m.len {
        return Ok(false);
    }
    let l = plain(columns, m);
    let ys = bases::base_of(
        l,
        n,
        Bases {
            nums: &columns.nums,
            dens: &columns.dens,
        },
    )?;
    if !bases::same_exponents(ys, xs) {
        return Ok(false);
    }
    let u = bases::scale_from(1.0, l)?;
    Ok(close(s, u))
}

// v of the list l in the list m, both checked.
fn converted(
    len: usize,
    n: usize,
    columns: &Columns,
    v: f64,
    l: Factors,
    m: Factors,
) -> Result<f64, Refusal>
    ensures { (tb : Table) (p : Checks tb l) (q : Checks tb m) → StoredIn tb len n columns.now → result ≡ conversions.convert (rules_of tb) p.factors q.factors v }
{
    let none = tables::no_items();
    let o = resolution::resolve(len, columns, l, m, none)?;
    conversion::convert::convert(
        v,
        o.a,
        o.b,
        n,
        Bases {
            nums: &columns.nums,
            dens: &columns.dens,
        },
    )
}

// ---- the candidates in turn

// The best so far, or the one that has won.
#[derive(Clone, Copy, Drop)]
pub struct Choice {
    pub best: Quantity,
    pub won: bool,
}

// v of the list m, with clean places past its end.
#[tactic(auto, using(crate::proofs::GivenLists::given_list, crate::proofs::GivenLists::given_short, units::proofs::Laws::len_pack))]
fn of_list(v: f64, m: Factors) -> Quantity
    ensures { (rows : ℕ) (ms : List Factorᵛ) → checked rows m ≡ Ok ms → result ≡ fresh v ms }
{
    let none = units::lists::empty();
    if 16 < m.len {
        return answers::with_mark(v, none, true);
    }
    answers::with_mark(v, units::lists::append(none, m), true)
}

// The list m after the best so far. `rest` has the base exponents xs and the scale s.
fn turn(
    len: usize,
    n: usize,
    columns: &Columns,
    rest: Quantity,
    best: Quantity,
    m: Factors,
    xs: [Exponent; 16],
    s: f64,
) -> Result<Choice, Refusal>
    ensures { (tb : Table) (a : Left tb rest) (b : Amount) (k : Checks tb m) (x : BaseExps tb xs) → best ≡ quantity_of b → StoredIn tb len n columns.now → result ≡ choice_of (spec.turn (rules_of tb) x.exps s a.amount b k.factors) }
{
    let l = rest.unit;
    let fit = fits(n, columns, m, l.len, xs, s)?;
    if !fit {
        return Ok(Choice { best, won: false });
    }
    let z = converted(len, n, columns, rest.value, l, m)?;
    let q = of_list(z, m);
    if m.len == 1 {
        return Ok(Choice { best: q, won: true });
    }
    let b = best.unit;
    if m.len < b.len {
        return Ok(Choice {
            best: q,
            won: false,
        });
    }
    Ok(Choice { best, won: false })
}

// The candidates in turn, the best being `rest` at first.
fn chosen(
    len: usize,
    n: usize,
    columns: &Columns,
    rest: Quantity,
    xs: [Exponent; 16],
    s: f64,
    c: Candidates,
) -> Result<Quantity, Refusal>
    ensures { (tb : Table) (a : Left tb rest) (k : Offers tb c) (x : BaseExps tb xs) → StoredIn tb len n columns.now → result ≡ handed (spec.chosen (rules_of tb) x.exps s a.amount a.amount k.lists) }
{
    let given = std::cmp::min(c.len, 32);
    let mut best = rest;
    for i in 0..given {
        let x = c.at[i];
        let o = turn(len, n, columns, rest, best, x.unit, xs, s)?;
        if o.won {
            return Ok(o.best);
        }
        best = o.best;
    }
    Ok(best)
}

// ---- the call

// Whether a list is one factor to a whole exponent.
#[tactic(auto, using(crate::proofs::Tested::single))]
fn is_single(l: Factors) -> bool
    ensures { (fs : List Factorᵛ) → l ≡ pack fs → length fs ≤ 16 → result ≡ spec.is_single fs }
{
    let f = l.at[0];
    let e = f.exponent;
    (l.len == 1) & (e.den == 1)
}

// What is left, simplified once more.
fn registered(
    t: Admitted,
    columns: &Columns,
    rest: Quantity,
    c: Candidates,
) -> Result<Quantity, Refusal>
    ensures { (tb : Table) (a : Left tb rest) (k : Offers tb c) → AdmitsIn tb.rows (Ok t) columns.now → result ≡ handed (spec.registered (rules_of tb) (base_rows tb.rows) k.lists a.amount) }
{
    let l = rest.unit;
    if l.len < 2 {
        return Ok(rest);
    }
    let p = plain(columns, l);
    let n = t.slots.len;
    let e = bases::base_of(
        p,
        n,
        Bases {
            nums: &columns.nums,
            dens: &columns.dens,
        },
    )?;
    let s = bases::scale_from(1.0, p)?;
    let u = reduce::base_factors(t.slots, e);
    if is_single(u) & near_one(s) {
        let w = converted(t.len, n, columns, rest.value, l, u)?;
        return Ok(answers::with_mark(w, u, true));
    }
    chosen(t.len, n, columns, rest, e, s, c)
}

// Over an admitted table.
pub fn full_simplify_with_over(
    t: Result<Admitted, Rejected>,
    columns: &Columns,
    q: Quantity,
    c: Candidates,
) -> Result<Quantity, Refusal>
    ensures { (rows : Rowsᵛ) → AdmitsIn rows t columns.now → result ≡ calls.full_simplify_with rows q c }
{
    let t = t?;
    let none = units::lists::empty();
    let blank = tables::no_items();
    let o = resolution::resolve(t.len, columns, q.unit, none, blank)?;
    check_candidates(t.len, c)?;
    if q.mark {
        let rest = simplification::steps::simplified(
            q.value,
            o.a,
            t.slots.len,
            Bases {
                nums: &columns.nums,
                dens: &columns.dens,
            },
        )?;
        return registered(t, columns, rest, c);
    }
    let l = lists::opening::factors_of(o.a);
    Ok(answers::with_mark(q.value, l, false))
}

pub fn full_simplify_with(rows: Rows, q: Quantity, c: Candidates) -> Result<Quantity, Refusal>
    ensures { result ≡ calls.full_simplify_with rows q c }
{
    let mut columns = Columns::zeros();
    let t = tables::admission::admit(rows, &mut columns);
    full_simplify_with_over(t, &columns, q, c)
}
