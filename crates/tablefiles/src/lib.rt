// The table file as calls by value (02, order 1): a table's file written, the rows of a file read, and what is whole
// of a damaged one salvaged.
#![tactic(auto)]

ghost use Rattle.std.specs.Prelude.{◌≡◌, []};
ghost use Rattle.lent.specs.Lent.{lent_rows_lem};
ghost use Rattle.replies.specs.Held.{Replied};
ghost use Rattle.tablefiles.specs.Calls.{write_table, read_table, salvage};
ghost use Rattle.tablefiles.specs.Held.{read_of, salvaged_of};

use exponents::refusals::Refusal;
use replies::Reply;
use units::Rows;

// How many rows are kept, and the byte where the first row not kept begins, or where the rows end.
#[derive(Clone, Copy, Drop)]
pub struct Kept {
    pub rows: usize,
    pub byte: usize,
}

#[derive(Clone, Copy, Drop)]
pub struct Salvaged {
    pub rows: Rows,
    pub told: Kept,
}

// The table's file into lent room: the table's refusals, then ROOM, which writes no byte.
#[tactic(auto, using(crate::proofs::Admissions::table_stops, crate::proofs::Admissions::table_keeps, crate::proofs::Admissions::few_rows, replies::proofs::Sent::too_short, replies::proofs::Sent::fits_in, replies::proofs::Sent::left_by), unfolding(crate::specs::Calls::write_table, replies::specs::Replies::sent, exponents::specs::Outcome::bind))]
pub fn write_table(rows: Rows, out: &mut [u8]) -> Reply
    ensures { Replied out.old (write_table rows) result out.new }
{
    lists::opening::admitted(rows)?;
    let n = filewrites::table_len(rows);
    if out.len() < n {
        return Err(Refusal::Room);
    }
    filewrites::write_table(out, rows);
    Ok(n)
}

// The rows of a file, where there are so many places for them: FORMAT, then the table's refusals.
#[tactic(auto, using(crate::proofs::Admissions::table_stops, crate::proofs::Admissions::table_keeps), unfolding(crate::specs::Calls::read_table, exponents::specs::Outcome::bind))]
pub fn read_table(file: &[u8], places: usize) -> Result<Rows, Refusal>
    ensures { result ≡ read_of (read_table places file.now) }
{
    let rows = filereads::read_table(file, places).ok_or(Refusal::Format)?;
    lists::opening::admitted(rows)?;
    Ok(rows)
}

#[tactic(auto, unfolding(lent::specs::Lent::lent_rows_lem, lent::specs::Lent::over))]
fn no_rows() -> Rows
    ensures { result ≡ lent_rows_lem [] }
{
    let none = lent::no_row();
    Rows {
        at: [none; 128],
        len: 0,
    }
}

fn handed(rows: Rows, byte: usize) -> Salvaged
    ensures { result ≡ record { rows = rows; told = record { rows = rows.len; byte = byte } } }
{
    let told = Kept {
        rows: rows.len,
        byte: byte,
    };
    Salvaged { rows, told }
}

// The whole, admitted rows before the first fault, where there are so many places for them.
pub fn salvage_table(file: &[u8], places: usize) -> Salvaged
    ensures { result ≡ salvaged_of (salvage places file.now) }
{
    let Some((n, at)) = groups::read_number(file, 0) else {
        return handed(no_rows(), 0);
    };
    let most = (n as usize).min(places.min(128));
    let f = filereads::read_rows(file, at, most);
    match lists::opening::admitted(f.rows) {
        Ok(_) => handed(f.rows, f.next),
        Err(fault) => {
            // a whole row that isn't admitted: the rows before it, read again for the place where it begins
            let g = filereads::read_rows(file, at, fault.len);
            handed(g.rows, g.next)
        }
    }
}
