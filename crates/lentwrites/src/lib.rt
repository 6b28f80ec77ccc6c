// Rows written into a slice that the caller lends.
#![tactic(auto)]

ghost use Rattle.std.specs.Prelude.{◌≡◌, length};
ghost use Rattle.lentwrites.specs.Held.{fits, laid};

use units::{Row, Rows};

// The first n rows of r over the first n places of the slice, the others kept; nothing where n is over either length.
#[tactic(auto, unfolding(crate::specs::Held::fits, crate::specs::Held::laid))]
pub fn put_rows(r: Rows, n: usize, to: &mut [Row]) -> bool
    ensures { (result ≡ fits 128 n (length to.old)) × (to.new ≡ laid 128 n r.at to.old) }
{
    if to.len() < n || 128 < n {
        return false;
    }
    to[..n].copy_from_slice(&r.at[..n]);
    true
}
