// The knot vector and span quotients of knots in any units (02, order 4). Knots are lent as bytes and not copied; the table
// is admitted once, and what is done for a unit is done once for knots that have it.
// None of `knot_vector`, `span_quotient` asks anything of its caller. Each has a half, `.._over`, for an admitted table.
#![tactic(auto)]

ghost use Rattle.std.specs.Prelude.{◌≡◌, ◌+◌, ◌*◌, ◌≤◌, ◌<◌, length, set};
ghost use Rattle.units.specs.declared.Rows.{Rows as Rowsᵛ};
ghost use Rattle.tables.specs.Held.{AdmitsIn};
ghost use Rattle.wire.specs.Bytes.{run_at};
ghost use Rattle.wire.specs.Records.{quantity_at};
ghost use Rattle.knots.specs.Calls as spec;
ghost use Rattle.knots.specs.Calls.{knots_in, conversions};
ghost use Rattle.knots.specs.Held.{Makes, Inside, Shelved, Filling, Vectored};

use conversion::convert::Rate;
use exponents::refusals::Refusal;
use tables::pages::{Bases, Columns};
use tables::{Admitted, Rejected};
use units::{Factors, Rows};
use wire::{arguments, reading};

// A target unit, a tolerance in that unit, and a degree.
#[derive(Clone, Copy, Drop)]
pub struct Rule {
    pub unit: Factors,
    pub tolerance: f64,
    pub degree: u32,
}

// A rule, a value in its unit, and the place of a span's left knot.
#[derive(Clone, Copy, Drop)]
pub struct Span {
    pub rule: Rule,
    pub x: f64,
    pub at: usize,
}

// The conversions of the units met last, each with the place of a knot's list that has the unit; the oldest goes next.
#[derive(Clone, Copy, Drop)]
struct Shelf {
    rates: [Result<Rate, Refusal>; 8],
    places: [usize; 8],
    next: usize,
}

// What the conversion to the target makes of any value of the unit whose list is at a place.
fn rate_at(
    t: Result<Admitted, Rejected>,
    columns: &Columns,
    knots: &[u8],
    at: usize,
    target: Factors,
) -> Result<Rate, Refusal>
    requires { at + 324 ≤ length knots.now }
    ensures { (rows : Rowsᵛ) → AdmitsIn rows t columns.now → Makes rows target knots.now result at }
{
    let l = reading::read_list(knots, at);
    let o = lists::opening::open_over(t, columns, l, target);
    quantities::conversions::merged_rate_over(
        o,
        Bases {
            nums: &columns.nums,
            dens: &columns.dens,
        },
    )
}

// A conversion and its place on the shelf, where the oldest was.
fn put(shelf: &mut Shelf, rate: Result<Rate, Refusal>, at: usize)
    requires { shelf.old.next < 8 }
    ensures { (shelf.new.rates ≡ set shelf.old.rates shelf.old.next rate) × (shelf.new.places ≡ set shelf.old.places shelf.old.next at) × (shelf.new.next < 8) }
{
    let e = shelf.next;
    shelf.rates[e] = rate;
    shelf.places[e] = at;
    shelf.next = (e + 1) % 8;
}

// The conversion of the unit whose list is at a place: from the shelf, or worked out and put there.
fn shelved(
    shelf: &mut Shelf,
    t: Result<Admitted, Rejected>,
    columns: &Columns,
    knots: &[u8],
    at: usize,
    target: Factors,
) -> Result<Rate, Refusal>
    requires { (at + 324 ≤ length knots.now) × Inside (length knots.now) shelf.old }
    ensures { Inside (length knots.now) shelf.new × ((rows : Rowsᵛ) → AdmitsIn rows t columns.now → Shelved rows target knots.now shelf.old → Makes rows target knots.now result at × Shelved rows target knots.now shelf.new) }
{
    for k in 0..8 {
        if reading::same_list(knots, shelf.places[k], at) {
            return shelf.rates[k];
        }
    }
    let rate = rate_at(t, columns, knots, at, target);
    put(shelf, rate, at);
    rate
}

// The values of n knots in the target unit, knot after knot; or the refusal of the lowest that is refused.
fn fill(
    t: Result<Admitted, Rejected>,
    columns: &Columns,
    knots: &[u8],
    n: usize,
    target: Factors,
    values: &mut [f64],
) -> Result<(), Refusal>
    requires { (0 < n) × (n ≤ 512) × (n * 336 ≤ length knots.now) × (n ≤ length values.old) }
    ensures { (length values.new ≡ length values.old) × ((rows : Rowsᵛ) → AdmitsIn rows t columns.now → Filling (conversions rows (run_at quantity_at 336 n knots.now 0) target) result values.new) }
{
    let mut rate = rate_at(t, columns, knots, 12, target);
    let mut place = 12;
    let mut shelf = Shelf {
        rates: [rate; 8],
        places: [12; 8],
        next: 1,
    };
    for i in 0..n {
        let at = i * 336;
        if !reading::same_list(knots, place, at + 12) {
            place = at + 12;
            rate = shelved(&mut shelf, t, columns, knots, place, target);
        }
        let value = reading::read_value(knots, at);
        values[i] = conversion::convert::rated(rate, value)?;
    }
    Ok(())
}

// ---- the calls

// Over an admitted table.
#[tactic(auto, using(crate::proofs::Handed::few, crate::proofs::Handed::taken, crate::proofs::Handed::vector_faulty, crate::proofs::Handed::vector_filled), unfolding(knotruns::specs::Knots::roomy, exponents::specs::Outcome::bind))]
pub fn knot_vector_over(
    t: Result<Admitted, Rejected>,
    columns: &Columns,
    knots: &[u8],
    rule: Rule,
    firsts: &mut [f64],
    times: &mut [u32],
) -> Result<usize, Refusal>
    ensures { (rows : Rowsᵛ) → AdmitsIn rows t columns.now → Vectored rows knots.now rule result firsts.old firsts.new times.old times.new }
{
    let count = arguments::many(knots.len(), 336, 512);
    if knotruns::faulty(count, rule.degree, rule.tolerance) {
        return Err(Refusal::Argument);
    }
    let mut values = [0.0; 512];
    fill(t, columns, knots, count, rule.unit, &mut values)?;
    knotruns::knot_vector(&values[..count], rule.degree, rule.tolerance, firsts, times)
}

// The distinct values and their multiplicities into lent places. A refusal, ROOM last, leaves all of them as they are.
pub fn knot_vector(
    rows: Rows,
    knots: &[u8],
    rule: Rule,
    firsts: &mut [f64],
    times: &mut [u32],
) -> Result<usize, Refusal>
    ensures { Vectored rows knots.now rule result firsts.old firsts.new times.old times.new }
{
    let mut columns = Columns::zeros();
    let t = tables::admission::admit(rows, &mut columns);
    knot_vector_over(t, &columns, knots, rule, firsts, times)
}

// Over an admitted table.
#[tactic(auto, using(crate::proofs::Handed::few, crate::proofs::Handed::taken, crate::proofs::Handed::span_faulty, crate::proofs::Handed::span_filled))]
pub fn span_quotient_over(
    t: Result<Admitted, Rejected>,
    columns: &Columns,
    knots: &[u8],
    span: Span,
) -> Result<f64, Refusal>
    ensures { (rows : Rowsᵛ) → AdmitsIn rows t columns.now → result ≡ spec.span_quotient rows (knots_in knots.now) span }
{
    let rule = span.rule;
    let count = arguments::many(knots.len(), 336, 512);
    if knotruns::faulty(count, rule.degree, rule.tolerance) {
        return Err(Refusal::Argument);
    }
    let mut values = [0.0; 512];
    fill(t, columns, knots, count, rule.unit, &mut values)?;
    knotruns::span_quotient(
        &values[..count],
        rule.degree,
        rule.tolerance,
        span.at,
        span.x,
    )
}

// (x - left) / (right - left) in the span whose left knot is at a place, its ends at their runs' first values; 0 where both are in one run.
pub fn span_quotient(rows: Rows, knots: &[u8], span: Span) -> Result<f64, Refusal>
    ensures { result ≡ spec.span_quotient rows (knots_in knots.now) span }
{
    let mut columns = Columns::zeros();
    let t = tables::admission::admit(rows, &mut columns);
    span_quotient_over(t, &columns, knots, span)
}
