// Admission of a table's rows, in row order (01, "Records and sizes", "The refusals"): the first fault decides.
ghost use Rattle.std.specs.Prelude.{◌≡◌, ◌||◌, not, [], ◌≤◌, ◌<◌, ltb, eqb, length, take};
ghost use Rattle.units.specs.Lists.{some};
ghost use Rattle.tables.specs.Rows as spec;
ghost use Rattle.tables.specs.Rows.{rows_of, def_of};
ghost use Rattle.tables.specs.Held.{pack_slots, NoughtIn, counted, AdmitsIn, EntersIn};

use super::pages::Columns;
use super::{Admitted, Rejected, Slot, Slots, pages, ranked, rows};
use exponents::refusals::Refusal;
use units::{Kind, Row, Rows};

// The base rows in rank order.
fn slots_of(rows: Rows) -> Slots
    requires { rows.len ≤ 128 }
    ensures { result ≡ pack_slots (spec.slots (rows_of rows)) }
{
    let mut slots = ranked::no_slots();
    for i in 0..rows.len {
        let s = Slot {
            row: i as u32,
            rank: rows.at[i].rank,
        };
        slots = ranked::slotted(slots, rows.at[i].kind, s);
    }
    slots
}

// Whether a rank was met among the first n. No way out early: this is the loop that every row pays for.
#[tactic(auto, using(exponents::proofs::Taking::drop_step_of, exponents::proofs::Taking::drop_end_of, crate::proofs::Search::told_more, crate::proofs::Search::told_none), unfolding(units::specs::Lists::some))]
fn rank_met(ranks: &[u16], n: usize, rank: u16) -> bool
    requires { n ≤ length ranks.now }
    ensures { result ≡ some (λ x. eqb x rank) (take n ranks.now) }
{
    let mut met = false;
    for x in &ranks[..n] {
        met = met | (*x == rank);
    }
    met
}

// A seventeenth base row, a base row with a definition; a factor that isn't finite and above zero.
#[tactic(auto, unfolding(crate::specs::Rows::kind_fault))]
fn kind_fault(k: Kind, bases: usize, len: usize) -> bool
    ensures { result ≡ spec.kind_fault k bases len }
{
    match k {
        Kind::Base => (15 < bases) | !(len == 0),
        Kind::Derived(f) => !floats::is_positive(f),
    }
}

// What breaks the table rules of a row, but for the rows that it names.
fn row_fault(row: Row, bases: usize, met: bool) -> bool
    ensures { result ≡ met || spec.kind_fault row.kind bases row.len || ltb 8 row.len }
{
    met | kind_fault(row.kind, bases, row.len) | (8 < row.len)
}

// How many base rows there are with one row more.
#[tactic(auto, unfolding(crate::specs::Held::counted))]
pub fn counted(k: Kind, bases: usize) -> usize
    requires { bases ≤ 16 }
    ensures { result ≡ counted k bases }
{
    match k {
        Kind::Base => bases + 1,
        Kind::Derived(f) => bases,
    }
}

// Whether a definition names its own row, i, or a higher one.
#[tactic(auto, using(exponents::proofs::Taking::drop_step_of, exponents::proofs::Taking::drop_end_of), unfolding(units::specs::Lists::some))]
fn names_ahead(row: Row, i: usize) -> bool
    requires { row.len ≤ 8 }
    ensures { result ≡ some (λ f. not (ltb f.row i)) (def_of row) }
{
    for f in &row.def[..row.len] {
        if i <= (f.row as usize) {
            return true;
        }
    }
    false
}

// Row i put behind the rows before it, of which `bases` are base; or its refusal.
pub fn admit_row(
    row: Row,
    i: usize,
    slots: Slots,
    bases: usize,
    columns: &mut Columns,
) -> Result<(), Refusal>
    requires { (i < 128) × (slots.len ≤ 16) }
    ensures { EntersIn slots i bases row result columns.old columns.new }
{
    let met = rank_met(&columns.ranks, i, row.rank);
    if row_fault(row, bases, met) {
        return Err(Refusal::Table);
    }
    if names_ahead(row, i) {
        return Err(Refusal::Table);
    }
    if rows::def_fault(row) {
        return Err(Refusal::Shape);
    }
    let k = rows::work_out(row, columns, slots, i)?;
    pages::put_exps(&mut columns.nums, &mut columns.dens, i * 16, k.exps);
    columns.scales[i] = k.scale;
    columns.ranks[i] = k.rank;
    columns.based[i] = k.base;
    Ok(())
}

// A row as it is. A call's result has its arrays' lengths, which an element of an array has not.
fn taken(row: Row) -> Row
    ensures { result ≡ row }
{
    row
}

// The rows of a table, put in columns; or the first fault's refusal, and how many rows stood before it.
pub fn admit(rows: Rows, columns: &mut Columns) -> Result<Admitted, Rejected>
    requires { NoughtIn columns.old }
    ensures { AdmitsIn rows result columns.new }
{
    let n = rows.len;
    if 128 < n {
        return Err(Rejected {
            refusal: Refusal::Table,
            len: 0,
        });
    }
    let slots = slots_of(rows);
    columns.clear();
    let mut bases = 0;
    for i in 0..n {
        let row = taken(rows.at[i]);
        let entered = admit_row(row, i, slots, bases, columns);
        if let Err(refusal) = entered {
            return Err(Rejected { refusal, len: i });
        }
        bases = counted(row.kind, bases);
    }
    Ok(Admitted { slots, len: n })
}
