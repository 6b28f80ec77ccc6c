// Numbers in groups of seven bits, the low group first, the high bit set on all but the last; the shortest form only.
// Signed numbers are folded: 0, -1, 1, -2 are 0, 1, 2, 3.
#![tactic(auto)]

ghost use Rattle.std.specs.Prelude.{◌≡◌, ◌+◌, ◌≤◌, length, drop};
ghost use Rattle.std.proofs.lemmas.List.Edits.{sets};
ghost use Rattle.groups.specs.Numbers.{number_bytes, up_to?, folded, unfolded};
ghost use Rattle.groups.specs.Held.{handed};

// The number of at most `most` that begins at a place, and the place behind it.
pub fn read_up_to(s: &[u8], at: usize, most: u32) -> Option<(u32, usize)>
    ensures { result ≡ handed (length s.now) (up_to? most (drop at s.now)) }
{
    let mut v: u64 = 0;
    let mut i = at;
    for k in 0..5u32 {
        if i >= s.len() {
            return None;
        }
        let b = s[i] as u64;
        v |= (b & 0x7f) << (7 * k);
        i += 1;
        if b < 128 {
            if (b == 0) & (k != 0) {
                return None;
            }
            if v > most as u64 {
                return None;
            }
            return Some((v as u32, i));
        }
    }
    None
}

pub fn read_number(s: &[u8], at: usize) -> Option<(u32, usize)>
    ensures { result ≡ handed (length s.now) (up_to? 4294967295 (drop at s.now)) }
{
    read_up_to(s, at, u32::MAX)
}

// How many bytes a number takes.
#[tactic(auto, using(crate::proofs::Walk::group_turn, crate::proofs::Walk::group_end), unfolding(crate::specs::Numbers::number_bytes))]
pub fn number_len(x: u32) -> usize
    ensures { (result ≡ length (number_bytes x)) × (result ≤ 5) }
{
    let mut y = x;
    let mut k = 0;
    // Kept: seven bits go at a turn until the rest fits; there is no index to count.
    while y >= 128 {
        y >>= 7;
        k += 1;
    }
    k + 1
}

// A number from a place on, and the place behind it.
#[tactic(auto, using(crate::proofs::Walk::group_turn, crate::proofs::Walk::group_end, crate::proofs::Walk::high_set), unfolding(crate::specs::Numbers::number_bytes))]
pub fn write_number(out: &mut [u8], at: usize, x: u32) -> usize
    requires { at + length (number_bytes x) ≤ length out.old }
    ensures { (out.new ≡ sets out.old at (number_bytes x)) × (length out.new ≡ length out.old) × (result ≡ at + length (number_bytes x)) }
{
    let mut y = x;
    let mut i = at;
    // Kept: seven bits go at a turn until the rest fits; there is no index to count.
    while y >= 128 {
        out[i] = (y & 0x7f | 0x80) as u8;
        y >>= 7;
        i += 1;
    }
    out[i] = y as u8;
    i + 1
}

pub fn fold(n: i32) -> u32
    ensures { result ≡ folded n }
{
    let m = n.unsigned_abs();
    if n < 0 { (m - 1) * 2 + 1 } else { m * 2 }
}

#[tactic(auto, unfolding(crate::specs::Numbers::unfolded))]
pub fn unfold(x: u32) -> i32
    ensures { result ≡ unfolded x }
{
    let h = (x / 2) as i32;
    if x % 2 == 0 { h } else { -1 - h }
}
