// The calls of the table file over lent rows: a table written from them, read into them, salvaged into them.
// Kept: calls alike but for the call they pass on to: each has its name in 02 and a contract over its own definition.
#![tactic(auto)]

ghost use Rattle.std.specs.Prelude.{◌≡◌, ◌++◌, length, drop};
ghost use Rattle.lent.specs.Lent.{lent_rows_lem};
ghost use Rattle.replies.specs.Held.{Replied};
ghost use Rattle.tablefiles.specs.Calls.{write_table, read_table, told_of, salvage, kept_of};
ghost use Rattle.lentfiles.specs.Calls.{rows_left};

use exponents::refusals::Refusal;
use replies::Reply;
use tablefiles::Kept;
use units::Row;

// A refused write writes no byte.
pub fn write_table(rows: &[Row], out: &mut [u8]) -> Reply
    ensures { Replied out.old (write_table (lent_rows_lem rows.now)) result out.new }
{
    tablefiles::write_table(lent::rows_of(rows), out)
}

// How many rows are read. A refused read writes no row; rows past the count stay.
#[tactic(auto, using(crate::proofs::Follows::read_refused))]
pub fn read_table(file: &[u8], to: &mut [Row]) -> Result<usize, Refusal>
    ensures { (result ≡ told_of (read_table (length to.old) file.now)) × (to.new ≡ rows_left to.old (read_table (length to.old) file.now)) }
{
    let rows = tablefiles::read_table(file, to.len())?;
    lentwrites::put_rows(rows, rows.len, to);
    Ok(rows.len)
}

// Salvage writes only the rows it keeps.
pub fn salvage_table(file: &[u8], to: &mut [Row]) -> Kept
    ensures { (result ≡ kept_of (salvage (length to.old) file.now)) × (to.new ≡ (salvage (length to.old) file.now).0 ++ drop (length (salvage (length to.old) file.now).0) to.old) }
{
    let d = tablefiles::salvage_table(file, to.len());
    lentwrites::put_rows(d.rows, d.rows.len, to);
    d.told
}
