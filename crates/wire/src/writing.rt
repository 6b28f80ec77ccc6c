// Records into bytes, from a place on; what stands before and behind is kept.
ghost use Rattle.std.specs.Prelude.{◌≡◌, ◌+◌, ◌≤◌, length};
ghost use Rattle.std.proofs.lemmas.List.Edits.{sets};
ghost use Rattle.wire.specs.Records.{exponent_bytes, prefix_kind, prefix_number, prefix_bytes, factor_bytes, list_bytes, quantity_bytes, kind_number, kind_factor, row_bytes, candidate_bytes};

use super::numbers::{store, write_i32, write_u32};
use exponents::Exponent;
use units::{Candidate, Factor, Factors, Kind, Prefix, Quantity, Row};

#[tactic(auto, using(crate::proofs::Stored::sets_number), unfolding(crate::specs::Records::exponent_bytes))]
pub fn write_exponent(out: &mut [u8], at: usize, e: Exponent)
    requires { at + 8 ≤ length out.old }
    ensures { (out.new ≡ sets out.old at (exponent_bytes e)) × (length out.new ≡ length out.old) }
{
    write_i32(out, at, e.num);
    write_u32(out, at + 4, e.den);
}

// Kept: the byte form's number; type and number are other crates', so no From can stand here.
pub fn prefix_kind(p: Prefix) -> u32
    ensures { result ≡ prefix_kind p }
{
    match p {
        Prefix::Metric(_) => 0,
        Prefix::Binary(_) => 1,
    }
}

// Kept: the byte form's number; type and number are other crates', so no From can stand here.
pub fn prefix_number(p: Prefix) -> i32
    ensures { result ≡ prefix_number p }
{
    match p {
        Prefix::Metric(n) => n,
        Prefix::Binary(n) => n,
    }
}

#[tactic(auto, using(crate::proofs::Stored::sets_number), unfolding(crate::specs::Records::prefix_bytes))]
pub fn write_prefix(out: &mut [u8], at: usize, p: Prefix)
    requires { at + 8 ≤ length out.old }
    ensures { (out.new ≡ sets out.old at (prefix_bytes p)) × (length out.new ≡ length out.old) }
{
    write_u32(out, at, prefix_kind(p));
    write_i32(out, at + 4, prefix_number(p));
}

#[tactic(auto, using(crate::proofs::Stored::factor_written))]
pub fn write_factor(out: &mut [u8], at: usize, f: Factor)
    requires { at + 20 ≤ length out.old }
    ensures { (out.new ≡ sets out.old at (factor_bytes f)) × (length out.new ≡ length out.old) }
{
    let p = f.prefix;
    let e = f.exponent;
    write_u32(out, at, f.row);
    write_prefix(out, at + 4, p);
    write_exponent(out, at + 12, e);
}

#[tactic(auto, using(crate::proofs::Stored::factors_turn, crate::proofs::Stored::write_end, crate::proofs::Stored::sets_number), unfolding(crate::specs::Records::list_bytes))]
pub fn write_list(out: &mut [u8], at: usize, l: Factors)
    requires { at + 324 ≤ length out.old }
    ensures { (out.new ≡ sets out.old at (list_bytes l)) × (length out.new ≡ length out.old) }
{
    store(out, at, 4, l.len as u64);
    for i in 0..16 {
        write_factor(out, at + 4 + i * 20, l.at[i]);
    }
}

#[tactic(auto, using(crate::proofs::Stored::sets_number), unfolding(crate::specs::Records::quantity_bytes))]
pub fn write_quantity(out: &mut [u8], at: usize, q: Quantity)
    requires { at + 336 ≤ length out.old }
    ensures { (out.new ≡ sets out.old at (quantity_bytes q)) × (length out.new ≡ length out.old) }
{
    let u = q.unit;
    store(out, at, 8, floats::bits_of(q.value));
    write_u32(out, at + 8, u32::from(q.mark));
    write_list(out, at + 12, u);
}

// Kept: the byte form's number; type and number are other crates', so no From can stand here.
fn kind_number(k: Kind) -> u16
    ensures { result ≡ kind_number k }
{
    match k {
        Kind::Base => 0,
        Kind::Derived(_) => 1,
    }
}

// Kept: the byte form's number; type and number are other crates', so no From can stand here.
fn kind_factor(k: Kind) -> f64
    ensures { result ≡ kind_factor k }
{
    match k {
        Kind::Base => 0.0,
        Kind::Derived(x) => x,
    }
}

#[tactic(auto, using(crate::proofs::Stored::factors_turn, crate::proofs::Stored::write_end, crate::proofs::Stored::sets_number), unfolding(crate::specs::Records::row_bytes))]
pub fn write_row(out: &mut [u8], at: usize, r: Row)
    requires { at + 176 ≤ length out.old }
    ensures { (out.new ≡ sets out.old at (row_bytes r)) × (length out.new ≡ length out.old) }
{
    let k = r.kind;
    store(out, at, 2, r.rank as u64);
    store(out, at + 2, 2, kind_number(k) as u64);
    store(out, at + 4, 4, r.len as u64);
    store(out, at + 8, 8, floats::bits_of(kind_factor(k)));
    for i in 0..8 {
        write_factor(out, at + 16 + i * 20, r.def[i]);
    }
}

#[tactic(auto, using(crate::proofs::Stored::sets_number), unfolding(crate::specs::Records::candidate_bytes))]
pub fn write_candidate(out: &mut [u8], at: usize, c: Candidate)
    requires { at + 328 ≤ length out.old }
    ensures { (out.new ≡ sets out.old at (candidate_bytes c)) × (length out.new ≡ length out.old) }
{
    let u = c.unit;
    store(out, at, 2, c.rank as u64);
    store(out, at + 2, 2, 0);
    write_list(out, at + 4, u);
}
