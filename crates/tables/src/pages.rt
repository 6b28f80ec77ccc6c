// What is known of all rows, as plain numbers in five columns: row r's base exponents stand at 16 r and the places behind it, in
// the order of the slots; its scale, its rank and whether it is base at r.
ghost use Rattle.std.specs.Prelude.{◌≡◌, ◌+◌, ◌*◌, ◌<◌, ◌≤◌, length, get_or, take, drop, pos};
ghost use Rattle.std.proofs.lemmas.List.Edits.{sets};
ghost use Rattle.tables.specs.Held.{tops, bottoms, told, BlankIn, NoughtIn};

use exponents::Exponent;

// Of up to 128 rows. Numerators and denominators stand apart, so that a column is plain numbers.
#[derive(Drop)]
pub struct Columns {
    pub nums: [i32; 2048],
    pub dens: [u32; 2048],
    pub scales: [f64; 128],
    pub ranks: [u16; 128],
    pub based: [bool; 128],
}

// The first two, lent: what the rows' base exponents are.
#[derive(Clone, Copy, Drop)]
pub struct Bases<'a> {
    pub nums: &'a [i32],
    pub dens: &'a [u32],
}

impl Columns {
    // Zeros throughout: what an admission is lent, which puts the ones where they stay. An array of ones in a value that a
    // function hands over is made apart and copied, twice.
    pub fn zeros() -> Columns
        ensures { NoughtIn result }
    {
        Columns {
            nums: [0; 2048],
            dens: [0; 2048],
            scales: [0.0; 128],
            ranks: [0; 128],
            based: [false; 128],
        }
    }

    // Of no row, where all numerators are zero.
    pub fn clear(&mut self)
        requires { NoughtIn self.old }
        ensures { BlankIn 0 self.new }
    {
        self.dens.fill(1);
        self.scales.fill(1.0);
    }

    // Of no row.
    pub fn blank() -> Columns
        ensures { BlankIn 0 result }
    {
        let mut columns = Columns::zeros();
        columns.clear();
        columns
    }
}

// The exponent at place i.
pub fn exponent_at(bases: Bases, i: usize) -> Exponent
    requires { (i < length bases.nums.now) × (i < length bases.dens.now) }
    ensures { (result.num ≡ get_or bases.entry.nums.now i (pos 0)) × (result.den ≡ get_or bases.entry.dens.now i 1) }
{
    Exponent {
        num: bases.nums[i],
        den: bases.dens[i],
    }
}

// A row's exponent at place s, whatever row is asked for.
#[tactic(auto, unfolding(crate::specs::Held::told))]
pub fn exponent_of(bases: Bases, row: u32, s: usize) -> Exponent
    requires { s < 16 }
    ensures { result ≡ told bases.entry.nums.now bases.entry.dens.now row s }
{
    let at = (row as usize) * 16 + s;
    Exponent {
        num: bases.nums.get(at).copied().unwrap_or(0),
        den: bases.dens.get(at).copied().unwrap_or(1),
    }
}

// Sixteen exponents from place `at` on.
pub fn exps_at(bases: Bases, at: usize) -> [Exponent; 16]
    requires { (at + 16 ≤ length bases.nums.now) × (at + 16 ≤ length bases.dens.now) }
    ensures { (tops result ≡ take 16 (drop at bases.entry.nums.now)) × (bottoms result ≡ take 16 (drop at bases.entry.dens.now)) }
{
    let mut e = [Exponent { num: 0, den: 1 }; 16];
    for s in 0..16 {
        e[s] = exponent_at(bases, at + s);
    }
    e
}

// Sixteen exponents put at place `at` and behind it.
pub fn put_exps(nums: &mut [i32], dens: &mut [u32], at: usize, e: [Exponent; 16])
    requires { (at + 16 ≤ length nums.old) × (at + 16 ≤ length dens.old) }
    ensures { (nums.new ≡ sets nums.old at (tops e)) × (dens.new ≡ sets dens.old at (bottoms e)) }
{
    for s in 0..16 {
        let x = e[s];
        nums[at + s] = x.num;
        dens[at + s] = x.den;
    }
}
