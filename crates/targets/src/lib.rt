// What simplification converts to (01, "Simplification"): one factor to a whole exponent, or the targets of groups of factors.
// `single`: `first_multiple`. `groups`: `group_at`, `target_of`, `joined`. None asks more of its caller than a place within a list.
#![tactic(auto)]

ghost use Rattle.std.specs.Prelude.{◌≡◌};
ghost use Rattle.tables.specs.Order.{atom, of};
ghost use Rattle.canonical.specs.Held.{with_factor};

use exponents::Exponent;
use tables::Item;

pub mod single; // one factor that all others are a whole power of
pub mod groups; // factors of one key

// An item with another exponent.
pub fn at_exponent(it: Item, e: Exponent) -> Item
    ensures { result ≡ with_factor it (of (atom it.factor) e) }
{
    let mut z = it;
    z.factor.exponent = e;
    z
}
