// The calls on table files from bytes to bytes: so many bytes, or so many places for rows, are lent for the answer.
#![tactic(auto)]

ghost use Rattle.std.specs.Prelude.{◌≡◌, List, ◌≤◌, length};
ghost use Rattle.exponents.specs.Outcome.{Ok};
ghost use Rattle.exponents.specs.Words.{All};
ghost use Rattle.units.specs.declared.Row.{Row as Rowᵛ};
ghost use Rattle.lent.specs.Lent.{lent_rows_lem};
ghost use Rattle.replies.specs.Held.{Replied};
ghost use Rattle.askfiles.specs.Calls as spec;

use exponents::refusals::Refusal;
use replies::Reply;
use units::Rows;
use wire::numbers::store;

// The table's file behind its length. A room shorter than the two numbers has none for a file, which is never empty.
pub fn write_table(table: &[u8], room: usize, out: &mut [u8]) -> Reply
    ensures { Replied out.old (spec.write_table table.now room) result out.new }
{
    let t = wiretables::table(table);
    let len = out.len();
    let from = len.min(8);
    let end = from + room.min(len - from);
    let n = tablefiles::write_table(t, &mut out[from..end])?;
    store(out, 0, 4, n as u64);
    store(out, 4, 4, 0);
    Ok(8 + n)
}

// The first n rows behind two numbers, their own and another.
fn rows_behind(rows: Rows, n: usize, other: usize, out: &mut [u8]) -> Reply
    requires { n ≤ 128 }
    ensures { (rs : List Rowᵛ) → rows ≡ lent_rows_lem rs → n ≡ length rs → All (λ r. length r.def ≡ 8) rs → Replied out.old (Ok (spec.rows_reply other rs)) result out.new }
{
    let len = 8 + n * 176;
    if out.len() < len {
        return Err(Refusal::Room);
    }
    store(out, 0, 4, n as u64);
    store(out, 4, 4, other as u64);
    wiretables::write_rows(out, 8, rows, n);
    Ok(len)
}

pub fn read_table(file: &[u8], places: usize, out: &mut [u8]) -> Reply
    ensures { Replied out.old (spec.read_table file.now places) result out.new }
{
    let rows = tablefiles::read_table(file, places)?;
    rows_behind(rows, rows.len, 0, out)
}

pub fn salvage_table(file: &[u8], places: usize, out: &mut [u8]) -> Reply
    ensures { Replied out.old (spec.salvage_table file.now places) result out.new }
{
    let d = tablefiles::salvage_table(file, places);
    rows_behind(d.rows, d.told.rows, d.told.byte, out)
}
