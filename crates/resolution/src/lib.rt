// Two lists checked against an admitted table, and each factor handed out with what is known of its row (01, "The refusals", "Canonical form").
// Public: `resolve`. Above it nothing sees the table but for its rows' base exponents, in two lent columns.
#![tactic(auto)]

ghost use Rattle.std.specs.Prelude.{◌≡◌, false, List, ◌++◌, length, get_or};
ghost use Prim.Native.Nat.{◌+◌, ◌≤◌, ◌<◌, compare, Ordering as Order};
ghost use Rattle.std.proofs.lemmas.List.Edits.{sets};
ghost use Rattle.floats.specs.Power.{one};
ghost use Rattle.units.specs.declared.Factor.{Factor as Factorᵛ};
ghost use Rattle.units.specs.Lists.{both, list_of, no_factor};
ghost use Rattle.keys.specs.Orders.{then};
ghost use Rattle.keys.specs.Held.{sense_of};
ghost use Rattle.tables.specs.Held.{is_less, view_of, pack_items, no_items_lem};
ghost use Rattle.tables.specs.Rows.{Facts};
ghost use Rattle.resolution.specs.Held.{Counts, FillsIn, Space, ReadsIn, count_by, count_of, item_by, resolved_of};

use exponents::refusals::Refusal;
use keys::order;
use std::cmp::Ordering;
use tables::pages::{Bases, Columns};
use tables::{Item, Items, pages};
use units::{Factor, Factors};

// Two resolved lists.
#[derive(Clone, Copy, Drop)]
pub struct Resolved {
    pub a: Items,
    pub b: Items,
}

// How many factors come before one: by key, rank and row; by key alone.
#[derive(Clone, Copy, Drop)]
struct Count {
    place: u32,
    class: u32,
}

// ---- how many come before a factor

// Whether a row of rank a and number r comes before one of rank b and number s.
#[tactic(auto, using(crate::proofs::Counting::pairs_less))]
fn lower(a: u16, r: u32, b: u16, s: u32) -> bool
    ensures { result ≡ is_less (then (compare a b) (compare r s)) }
{
    (a, r) < (b, s)
}

// One factor more: its key's order with the other's, and whether its rank and row come before.
#[tactic(auto, unfolding(tables::specs::Held::tally, tables::specs::Held::is_less))]
fn counted(c: Count, o: Ordering, low: bool) -> Count
    requires { (c.place < 32) × (c.class < 32) }
    ensures { (k rest : Order) → o ≡ sense_of k → low ≡ is_less rest → result ≡ count_by c k rest }
{
    match o {
        Ordering::Less => Count {
            place: c.place + 1,
            class: c.class + 1,
        },
        Ordering::Equal if low => Count {
            place: c.place + 1,
            class: c.class,
        },
        _ => c,
    }
}

// How many of the n factors named come before the one at place i. `named` has their rows, `keys` the keys of these.
#[tactic(auto, using(crate::proofs::Counting::low))]
fn count_of(keys: &[i64], named: &[u32], ranks: &[u16], i: usize, n: usize) -> Count
    requires { (i < n) × (length ranks.now ≡ 128) × Space n named.now keys.now }
    ensures { (ks : List Facts) (l : List Factorᵛ) → Counts ks l n named.now keys.now ranks.now → result ≡ count_of ks l (get_or named.now i 0) }
{
    let s = named[i];
    let b = ranks[s as usize];
    let mut c = Count { place: 0, class: 0 };
    for j in 0..n {
        let r = named[j];
        let o = order::compare_keys(keys, j * 16, i * 16);
        let low = lower(ranks[r as usize], r, b, s);
        c = counted(c, o, low);
    }
    c
}

// ---- a list

// A factor with what is known of its row, r.
#[tactic(auto, using(tables::proofs::Terms::get_any))]
fn item(scales: &[f64], based: &[bool], r: usize, f: Factor, c: Count) -> Item
    requires { (r < length scales.now) × (r < length based.now) }
    ensures { result ≡ item_by (get_or scales.now r one) (get_or based.now r false) f c }
{
    Item {
        factor: f,
        scale: scales[r],
        place: c.place,
        class: c.class,
        base: based[r],
    }
}

// The factors of l, which stand from place `from` on among the n that are named, each with its place and class among all.
#[tactic(auto, using(crate::proofs::Counting::low))]
fn items(
    l: Factors,
    from: usize,
    n: usize,
    keys: &[i64],
    named: &[u32],
    columns: &Columns,
    none: Items,
) -> Items
    requires { (l.len ≤ 16) × (from + l.len ≤ n) × Space n named.now keys.now }
    ensures { (ks : List Facts) (fs : List Factorᵛ) → FillsIn ks fs n l from none named.now keys.now columns.now → result ≡ pack_items (view_of ks fs) (list_of l) }
{
    let mut o = none;
    for i in 0..l.len {
        let f = l.at[i];
        let c = count_of(keys, named, &columns.ranks, from + i, n);
        let r = named[from + i];
        o.at[i] = item(&columns.scales, &columns.based, r as usize, f, c);
        o.len = i + 1;
    }
    o
}

// A key put at place `at` and behind it.
fn put_key(keys: &mut [i64], at: usize, k: [i64; 16])
    requires { at + 16 ≤ length keys.old }
    ensures { keys.new ≡ sets keys.old at k }
{
    keys[at..at + 16].copy_from_slice(&k);
}

// The row of the factor at place i of two lists joined.
fn row_at(a: &Factors, b: &Factors, i: usize) -> u32
    requires { (length a.now.at ≡ 16) × (a.now.len ≤ 16) × (b.now.len ≤ 16) × (i < a.now.len + b.now.len) }
    ensures { result ≡ (get_or (list_of a.now ++ list_of b.now) i no_factor).row }
{
    if i < a.len {
        a.at[i].row
    } else {
        b.at[i - a.len].row
    }
}

// Two lists of a table of `len` rows; `none` is the empty one, which is filled. An admitted table has at most 128, and each has a key: these two tests only spare callers a proof of it.
pub fn resolve(
    len: usize,
    columns: &Columns,
    a: Factors,
    b: Factors,
    none: Items,
) -> Result<Resolved, Refusal>
    ensures { (ks : List Facts) → ReadsIn ks len none columns.now → result ≡ resolved_of ks (both (length ks) a b) }
{
    if 128 < len {
        return Err(Refusal::Table);
    }
    units::lists::check_pair(len, a, b)?;
    let n = a.len;
    let m = n + b.len;
    // Kept: of other lengths: the rows that the lists name, and sixteen numbers of each one's key.
    let mut keys = [0i64; 512];
    let mut named = [0u32; 32];
    let bases = Bases {
        nums: &columns.nums,
        dens: &columns.dens,
    };
    for i in 0..m {
        let r = row_at(&a, &b, i);
        let e = pages::exps_at(bases, (r as usize) * 16);
        let k = keys::making::key_of(e)?;
        named[i] = r;
        put_key(&mut keys, i * 16, k);
    }
    let x = items(a, 0, m, &keys, &named, columns, none);
    let y = items(b, n, m, &keys, &named, columns, none);
    Ok(Resolved { a: x, b: y })
}
