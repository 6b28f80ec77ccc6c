// A table admitted straight from its bytes: each row is read where it is let in, and no table is built in between.
// `admit_bytes` answers what `tables::admission::admit` answers of the table that the bytes read as, `admitted` and
// `open_lists` what those of `lists::opening` answer.
#![tactic(auto)]

ghost use Rattle.std.specs.Prelude.{◌≡◌, ◌*◌, ◌≤◌, length};
ghost use Rattle.tables.specs.Rows as rows;
ghost use Rattle.tables.specs.Rows.{base_rows};
ghost use Rattle.tables.specs.Held.{pack_slots, NoughtIn, admitted_of, AdmitsIn};
ghost use Rattle.lists.specs.Held.{OpensTo};
ghost use Rattle.wire.specs.Bytes.{run_at};
ghost use Rattle.wire.specs.Records.{row_at};
ghost use Rattle.wire.specs.Arguments.{table_from};

use exponents::refusals::Refusal;
use lists::opening::Opened;
use tables::pages::Columns;
use tables::{Admitted, Rejected, Slot, Slots, admission, ranked};
use units::{Factors, Kind};
use wire::arguments::many;
use wire::numbers::read_u16;
use wire::reading::read_row;

// The base rows of n rows in rank order: of each row the rank and the kind alone are read.
fn slots_of(s: &[u8], n: usize) -> Slots
    requires { (n ≤ 128) × (n * 176 ≤ length s.now) }
    ensures { result ≡ pack_slots (rows.slots (run_at row_at 176 n s.now 0)) }
{
    let mut slots = ranked::no_slots();
    for i in 0..n {
        let kind = read_u16(s, i * 176 + 2);
        if kind == 0 {
            let row = Slot {
                row: i as u32,
                rank: read_u16(s, i * 176),
            };
            slots = ranked::slotted(slots, Kind::Base, row);
        }
    }
    slots
}

// The rows of a table in bytes, put in columns; or the first fault's refusal, and how many rows stood before it.
pub fn admit_bytes(s: &[u8], columns: &mut Columns) -> Result<Admitted, Rejected>
    requires { NoughtIn columns.old }
    ensures { AdmitsIn (table_from s.now) result columns.new }
{
    let n = many(s.len(), 176, 128);
    if 128 < n {
        return Err(Rejected {
            refusal: Refusal::Table,
            len: 0,
        });
    }
    let slots = slots_of(s, n);
    columns.clear();
    let mut bases = 0;
    for i in 0..n {
        let row = read_row(s, i * 176);
        let entered = admission::admit_row(row, i, slots, bases, columns);
        if let Err(refusal) = entered {
            return Err(Rejected { refusal, len: i });
        }
        bases = admission::counted(row.kind, bases);
    }
    Ok(Admitted { slots, len: n })
}

// A table alone, checked.
pub fn admitted(s: &[u8]) -> Result<Admitted, Rejected>
    ensures { result ≡ admitted_of (base_rows (table_from s.now)) (rows.admit (table_from s.now)) }
{
    let mut columns = Columns::zeros();
    admit_bytes(s, &mut columns)
}

// A table and two lists, checked in 01's order; what is known of the table's rows is left in columns, which have to be new.
pub fn open_lists(
    s: &[u8],
    a: Factors,
    b: Factors,
    columns: &mut Columns,
) -> Result<Opened, Refusal>
    requires { NoughtIn columns.old }
    ensures { OpensTo (table_from s.now) a b result columns.new }
{
    let t = admit_bytes(s, columns);
    lists::opening::open_over(t, columns, a, b)
}
