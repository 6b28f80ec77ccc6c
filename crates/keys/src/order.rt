// Comparing keys (01, "Canonical form"): as lists of (place, number), zeros left out, a shorter beginning first.
// Keys stand in one array of numbers, sixteen for each.
ghost use Rattle.std.specs.Prelude.{◌≡◌, ◌+◌, ◌<◌, ◌≤◌, pos, length, drop, get_or};
ghost use Rattle.keys.specs.Key.{entries};
ghost use Rattle.keys.specs.Orders.{lists, pairs};
ghost use Rattle.keys.specs.Held.{sense_of, more, key_at};

use std::cmp::Ordering;

// Whether a number other than zero stands at place p, or behind it, of the key at a.
fn has_more(keys: &[i64], a: usize, p: usize) -> bool
    requires { (p ≤ 16) × (a + 16 ≤ length keys.now) }
    ensures { result ≡ more (drop p (key_at a keys.now)) }
{
    for i in p..16 {
        if keys[a + i] != 0 {
            return true;
        }
    }
    false
}

// Keys from place p on, where they differ. A key with a zero there ends, and is the shorter beginning, or goes on at a higher place.
fn parted(keys: &[i64], a: usize, b: usize, p: usize) -> Ordering
    requires { (p < 16) × (a + 16 ≤ length keys.now) × (b + 16 ≤ length keys.now) × (get_or (key_at a keys.now) p (pos 0) ≡ get_or (key_at b keys.now) p (pos 0) → ⊥) }
    ensures { result ≡ sense_of (lists pairs (entries p (drop p (key_at a keys.now))) (entries p (drop p (key_at b keys.now)))) }
{
    let x = keys[a + p];
    let y = keys[b + p];
    if x == 0 {
        return if has_more(keys, a, p + 1) {
            Ordering::Greater
        } else {
            Ordering::Less
        };
    }
    if y == 0 {
        return if has_more(keys, b, p + 1) {
            Ordering::Less
        } else {
            Ordering::Greater
        };
    }
    x.cmp(&y)
}

// The key at a and the one at b.
pub fn compare_keys(keys: &[i64], a: usize, b: usize) -> Ordering
    requires { (a + 16 ≤ length keys.now) × (b + 16 ≤ length keys.now) }
    ensures { result ≡ sense_of (lists pairs (entries 0 (key_at a keys.now)) (entries 0 (key_at b keys.now))) }
{
    for i in 0..16 {
        if keys[a + i] != keys[b + i] {
            return parted(keys, a, b, i);
        }
    }
    Ordering::Equal
}
