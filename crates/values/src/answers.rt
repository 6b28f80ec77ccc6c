// Quantities as the calls hand them over: with a mark, fresh or kept (01, "Records and sizes").
ghost use Rattle.std.specs.Prelude.{◌≡◌, List};
ghost use Rattle.units.specs.declared.Factor.{Factor as Factorᵛ};
ghost use Rattle.units.specs.Lists.{pack};
ghost use Rattle.values.specs.Quantities.{made};

use units::{Factors, Quantity};

// A quantity with a mark: true for a new one.
pub fn with_mark(value: f64, unit: Factors, mark: bool) -> Quantity
    ensures { (fs : List Factorᵛ) → unit ≡ pack fs → result ≡ made mark value fs }
{
    Quantity {
        unit: unit,
        value: value,
        mark: mark,
    }
}
