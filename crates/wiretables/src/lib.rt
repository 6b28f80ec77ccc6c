// Tables in the byte form of 02's order 1: any bytes as a table or as a number, and rows written one after the other.
#![tactic(auto)]

ghost use Rattle.std.specs.Prelude.{◌≡◌, ◌+◌, ◌*◌, ◌≤◌, length, take};
ghost use Rattle.std.proofs.lemmas.List.Edits.{sets};
ghost use Rattle.wire.specs.Arguments.{table_from};
ghost use Rattle.wire.specs.Bytes.{run_bytes};
ghost use Rattle.wire.specs.Records.{row_bytes};
ghost use Rattle.wiretables.specs.Arguments.{word_from};

use units::{Row, Rows};
use wire::arguments::many;
use wire::numbers::read_u32;
use wire::reading;
use wire::writing::write_row;

// Rows past the most are not read; the length tells of them.
#[tactic(auto, using(wire::proofs::Runs::places_none, wire::proofs::Runs::places_turn), unfolding(wire::specs::Arguments::table_from))]
pub fn table(s: &[u8]) -> Rows
    ensures { result ≡ table_from s.now }
{
    let len = many(s.len(), 176, 128);
    let n = reading::count(128, len);
    let none = lent::no_row();
    let mut at = [none; 128];
    for i in 0..n {
        at[i] = reading::read_row(s, i * 176);
    }
    Rows { at, len }
}

#[tactic(auto, unfolding(crate::specs::Arguments::word_from))]
pub fn word(s: &[u8]) -> u32
    ensures { result ≡ word_from s.now }
{
    if s.len() == 4 {
        return read_u32(s, 0);
    }
    0
}

// A row by value has its 8 places, so its bytes are 176.
fn put(out: &mut [u8], at: usize, r: Row)
    requires { at + 176 ≤ length out.old }
    ensures { (out.new ≡ sets out.old at (row_bytes r)) × (length out.new ≡ length out.old) × (length (row_bytes r) ≡ 176) }
{
    write_row(out, at, r);
}

// The first n rows, from place at on.
pub fn write_rows(out: &mut [u8], at: usize, rows: Rows, n: usize)
    requires { (n ≤ 128) × (at + n * 176 ≤ length out.old) }
    ensures { (out.new ≡ sets out.old at (run_bytes row_bytes (take n rows.at))) × (length out.new ≡ length out.old) × (length (run_bytes row_bytes (take n rows.at)) ≡ n * 176) }
{
    for i in 0..n {
        put(out, at + i * 176, rows.at[i]);
    }
}
