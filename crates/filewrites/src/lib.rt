// Factors, rows and tables into bytes: how many they take, and written where there is room.
#![tactic(auto)]

ghost use Rattle.std.specs.Prelude.{◌≡◌, ◌+◌, ◌≤◌, length, take};
ghost use Rattle.std.proofs.lemmas.List.Edits.{sets};
ghost use Rattle.wire.specs.Bytes.{run_bytes};
ghost use Rattle.tables.specs.Rows.{def_of, rows_of};
ghost use Rattle.files.specs.Records.{factor_file, kind_file, row_file, table_file};
ghost use Rattle.filewrites.specs.Held.{five};
ghost use Rattle.exponents.specs.Words.{All};
ghost use Rattle.units.specs.declared.Kind.TheVariants.{Derived};

use groups::{fold, number_len, write_number};
use units::{Factor, Kind, Row, Rows};

#[tactic(auto, using(crate::proofs::Written::five_length))]
fn five_len(a: u32, b: u32, c: u32, d: u32, e: u32) -> usize
    ensures { (result ≡ length (five a b c d e)) × (result ≤ 25) }
{
    number_len(a) + number_len(b) + number_len(c) + number_len(d) + number_len(e)
}

#[tactic(auto, using(crate::proofs::Written::five_length, crate::proofs::Written::five_written))]
fn write_five(out: &mut [u8], at: usize, a: u32, b: u32, c: u32, d: u32, e: u32) -> usize
    requires { at + length (five a b c d e) ≤ length out.old }
    ensures { (out.new ≡ sets out.old at (five a b c d e)) × (length out.new ≡ length out.old) × (result ≡ at + length (five a b c d e)) }
{
    let i = write_number(out, at, a);
    let j = write_number(out, i, b);
    let l = write_number(out, j, c);
    let m = write_number(out, l, d);
    write_number(out, m, e)
}

// How many bytes a factor takes.
#[tactic(auto, using(crate::proofs::Written::five_factor))]
pub fn factor_len(f: Factor) -> usize
    ensures { (result ≡ length (factor_file f)) × (result ≤ 25) }
{
    let p = f.prefix;
    let e = f.exponent;
    let k = wire::writing::prefix_kind(p);
    let n = fold(wire::writing::prefix_number(p));
    let num = fold(e.num);
    five_len(f.row, k, n, num, e.den)
}

// A factor from a place on, and the place behind it.
#[tactic(auto, using(crate::proofs::Written::five_factor))]
pub fn write_factor(out: &mut [u8], at: usize, f: Factor) -> usize
    requires { at + length (factor_file f) ≤ length out.old }
    ensures { (out.new ≡ sets out.old at (factor_file f)) × (length out.new ≡ length out.old) × (result ≡ at + length (factor_file f)) }
{
    let p = f.prefix;
    let e = f.exponent;
    let k = wire::writing::prefix_kind(p);
    let n = fold(wire::writing::prefix_number(p));
    let num = fold(e.num);
    write_five(out, at, f.row, k, n, num, e.den)
}

// How many bytes the factors of a row take.
fn places_len(r: Row) -> usize
    requires { r.len ≤ 8 }
    ensures { (result ≡ length (run_bytes factor_file (def_of r))) × (result ≤ 200) }
{
    let mut n = 0;
    for f in &r.def[..r.len] {
        n += factor_len(*f);
    }
    n
}

fn write_places(out: &mut [u8], at: usize, r: Row) -> usize
    requires { (r.len ≤ 8) × (at + length (run_bytes factor_file (def_of r)) ≤ length out.old) }
    ensures { (out.new ≡ sets out.old at (run_bytes factor_file (def_of r))) × (length out.new ≡ length out.old) × (result ≡ at + length (run_bytes factor_file (def_of r))) }
{
    let mut p = at;
    for f in &r.def[..r.len] {
        p = write_factor(out, p, *f);
    }
    p
}

// How many bytes a row takes.
#[tactic(auto, using(crate::proofs::Written::row_length, crate::proofs::Written::base_bytes, crate::proofs::Written::kind_length))]
pub fn row_len(r: Row) -> usize
    requires { r.len ≤ 8 }
    ensures { (result ≡ length (row_file r)) × (result ≤ 223) }
{
    let kind = r.kind;
    let a = number_len(r.rank as u32);
    match kind {
        Kind::Base => a + number_len(0),
        Kind::Derived(_) => a + number_len(1) + 8 + number_len(r.len as u32) + places_len(r),
    }
}

// What follows the rank of a derived row.
#[tactic(auto, using(crate::proofs::Written::kind_length))]
fn write_derived(out: &mut [u8], at: usize, x: f64, r: Row) -> usize
    requires { (r.len ≤ 8) × (at + length (kind_file (Derived x) r) ≤ length out.old) }
    ensures { (out.new ≡ sets out.old at (kind_file (Derived x) r)) × (length out.new ≡ length out.old) × (result ≡ at + length (kind_file (Derived x) r)) }
{
    let i = write_number(out, at, 1);
    wire::numbers::store(out, i, 8, floats::bits_of(x));
    let j = write_number(out, i + 8, r.len as u32);
    write_places(out, j, r)
}

// A row from a place on, and the place behind it.
#[tactic(auto, using(crate::proofs::Written::row_length, crate::proofs::Written::base_bytes, crate::proofs::Written::row_written))]
pub fn write_row(out: &mut [u8], at: usize, r: Row) -> usize
    requires { (r.len ≤ 8) × (at + length (row_file r) ≤ length out.old) }
    ensures { (out.new ≡ sets out.old at (row_file r)) × (length out.new ≡ length out.old) × (result ≡ at + length (row_file r)) }
{
    let kind = r.kind;
    let i = write_number(out, at, r.rank as u32);
    match kind {
        Kind::Base => write_number(out, i, 0),
        Kind::Derived(x) => write_derived(out, i, x, r),
    }
}

// How many bytes a table takes.
pub fn table_len(t: Rows) -> usize
    requires { (t.len ≤ 128) × All (λ r. r.len ≤ 8) (rows_of t) }
    ensures { result ≡ length (table_file (rows_of t)) }
{
    let mut n = number_len(t.len as u32);
    for r in &t.at[..t.len] {
        n += row_len(*r);
    }
    n
}

// A table from the first byte on, and how many bytes it takes.
pub fn write_table(out: &mut [u8], t: Rows) -> usize
    requires { (t.len ≤ 128) × All (λ r. r.len ≤ 8) (rows_of t) × (length (table_file (rows_of t)) ≤ length out.old) }
    ensures { (out.new ≡ sets out.old 0 (table_file (rows_of t))) × (length out.new ≡ length out.old) × (result ≡ length (table_file (rows_of t))) }
{
    let mut p = write_number(out, 0, t.len as u32);
    for r in &t.at[..t.len] {
        p = write_row(out, p, *r);
    }
    p
}
