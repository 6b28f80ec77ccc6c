// Lent slices of records, copied once into records by value: `rows_of` and `candidates_of` keep the true length, so that
// one over the most is refused where the call looks at it. `no_row` and `no_candidate` stand past the end.
#![tactic(auto)]

ghost use Rattle.std.specs.Prelude.{◌≡◌};
ghost use Rattle.lent.specs.Lent.{no_row, no_candidate, lent_rows_lem, lent_candidates};

use units::{Candidate, Candidates, Factors, Kind, Row, Rows};

pub fn no_row() -> Row
    ensures { result ≡ no_row }
{
    Row {
        def: [units::lists::no_factor(); 8],
        len: 0,
        rank: 0,
        kind: Kind::Base,
    }
}

#[tactic(auto, using(crate::proofs::Laws::over_is), unfolding(crate::specs::Lent::lent_rows_lem))]
pub fn rows_of(rows: &[Row]) -> Rows
    ensures { result ≡ lent_rows_lem rows.now }
{
    let n = rows.len().min(128);
    let mut at = [no_row(); 128];
    at[..n].copy_from_slice(&rows[..n]);
    Rows {
        at,
        len: rows.len(),
    }
}

pub fn no_candidate() -> Candidate
    ensures { result ≡ no_candidate }
{
    let unit = Factors {
        at: [units::lists::no_factor(); 16],
        len: 0,
    };
    Candidate { unit, rank: 0 }
}

#[tactic(auto, using(crate::proofs::Laws::over_is), unfolding(crate::specs::Lent::lent_candidates))]
pub fn candidates_of(candidates: &[Candidate]) -> Candidates
    ensures { result ≡ lent_candidates candidates.now }
{
    let n = candidates.len().min(32);
    let mut at = [no_candidate(); 32];
    at[..n].copy_from_slice(&candidates[..n]);
    Candidates {
        at,
        len: candidates.len(),
    }
}
