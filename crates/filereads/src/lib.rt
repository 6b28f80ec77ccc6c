// Factors, rows and tables from bytes, each with the place behind it; what isn't whole is told from what is.
#![tactic(auto)]

ghost use Rattle.std.specs.Prelude.{◌≡◌, ◌+◌, ◌≤◌, length, drop};
ghost use Rattle.groups.specs.Taken.{run?};
ghost use Rattle.groups.specs.Held.{handed};
ghost use Rattle.files.specs.Records.{factor?, derived?, row?, base_row, front, table?};
ghost use Rattle.filereads.specs.Held.{places_of, front_of, rows_read_of};

use exponents::Exponent;
use groups::{read_number, read_up_to, unfold};
use units::{Factor, Kind, Row, Rows};

// A factor and the place behind it.
#[tactic(auto, using(groups::proofs::Steps::number_gives, groups::proofs::Steps::number_ends), unfolding(crate::specs::Held::steps))]
pub fn read_factor(s: &[u8], at: usize) -> Option<(Factor, usize)>
    ensures { result ≡ handed (length s.now) (factor? (drop at s.now)) }
{
    let (row, i) = read_number(s, at)?;
    let (k, j) = read_up_to(s, i, 1)?;
    let (n, l) = read_number(s, j)?;
    let (num, m) = read_number(s, l)?;
    let (den, next) = read_number(s, m)?;
    let prefix = wire::reading::prefix_of(k, unfold(n));
    let exponent = Exponent {
        num: unfold(num),
        den,
    };
    let f = Factor {
        row,
        prefix,
        exponent,
    };
    Some((f, next))
}

// n factors from a place on, in the places of a row, and the place behind them.
fn read_places(s: &[u8], at: usize, n: usize) -> Option<([Factor; 8], usize)>
    requires { (n ≤ 8) × (at ≤ length s.now) }
    ensures { result ≡ places_of (length s.now) (run? factor? n (drop at s.now)) }
{
    let none = units::lists::no_factor();
    let mut a = [none; 8];
    let mut p = at;
    for i in 0..n {
        let (f, q) = read_factor(s, p)?;
        a[i] = f;
        p = q;
    }
    Some((a, p))
}

// What follows the kind of a derived row.
#[tactic(auto, using(groups::proofs::Steps::number_gives, groups::proofs::Steps::number_ends, crate::proofs::Filled::eight_at, crate::proofs::Filled::eight_cut, crate::proofs::Filled::places_missing), unfolding(crate::specs::Held::steps))]
fn read_derived(s: &[u8], at: usize, rank: u16) -> Option<(Row, usize)>
    ensures { result ≡ handed (length s.now) (derived? rank (drop at s.now)) }
{
    let len = s.len();
    if len < 8 || len - 8 < at {
        return None;
    }
    let x = floats::of_bits(wire::numbers::read_u64(s, at));
    let (n, l) = read_up_to(s, at + 8, 8)?;
    let (def, next) = read_places(s, l, n as usize)?;
    let kind = Kind::Derived(x);
    let row = Row {
        def,
        len: n as usize,
        rank,
        kind,
    };
    Some((row, next))
}

fn base_row(rank: u16) -> Row
    ensures { result ≡ base_row rank }
{
    let none = units::lists::no_factor();
    let kind = Kind::Base;
    Row {
        def: [none; 8],
        len: 0,
        rank,
        kind,
    }
}

// A row and the place behind it.
#[tactic(auto, using(groups::proofs::Steps::number_gives, groups::proofs::Steps::number_ends), unfolding(crate::specs::Held::steps))]
pub fn read_row(s: &[u8], at: usize) -> Option<(Row, usize)>
    ensures { result ≡ handed (length s.now) (row? (drop at s.now)) }
{
    let (rank, i) = read_up_to(s, at, 65535)?;
    let (k, j) = read_up_to(s, i, 1)?;
    if k != 0 {
        return read_derived(s, j, rank as u16);
    }
    Some((base_row(rank as u16), j))
}

// Rows, as many as are whole, and the place where the first that isn't begins, or where they end. Over 128 are counted and not kept.
#[derive(Clone, Copy, Drop)]
pub struct Front {
    pub rows: Rows,
    pub next: usize,
}

// Up to n rows from a place on.
pub fn read_rows(s: &[u8], at: usize, n: usize) -> Front
    requires { at ≤ length s.now }
    ensures { result ≡ front_of (length s.now) (front n (drop at s.now)) }
{
    let none = lent::no_row();
    let mut a = [none; 128];
    let mut p = at;
    for i in 0..n {
        let Some((row, q)) = read_row(s, p) else {
            let rows = Rows { at: a, len: i };
            return Front { rows, next: p };
        };
        if i < 128 {
            a[i] = row;
        }
        p = q;
    }
    let rows = Rows { at: a, len: n };
    Front { rows, next: p }
}

// The rows of a whole file, with so many places for them.
#[tactic(auto, using(groups::proofs::Steps::number_gives, groups::proofs::Steps::number_ends), unfolding(crate::specs::Held::steps))]
pub fn read_table(s: &[u8], places: usize) -> Option<Rows>
    ensures { result ≡ rows_read_of (table? places s.now) }
{
    let (n, at) = read_number(s, 0)?;
    if places < n as usize {
        return None;
    }
    let f = read_rows(s, at, n as usize);
    if (f.rows.len != n as usize) | (f.next != s.len()) {
        return None;
    }
    Some(f.rows)
}
