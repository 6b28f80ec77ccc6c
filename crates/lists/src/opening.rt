// A table and two lists, checked in 01's order, and handed on as resolved lists.
ghost use Rattle.std.specs.Prelude.{◌≡◌, List};
ghost use Rattle.units.specs.declared.Factor.{Factor as Factorᵛ};
ghost use Rattle.units.specs.Lists.{pack};
ghost use Rattle.units.specs.declared.Rows.{Rows as Rowsᵛ};
ghost use Rattle.tables.specs.Rows.{admit, base_rows};
ghost use Rattle.tables.specs.Held.{NoughtIn, admitted_of, View, Resolved, AdmitsIn};
ghost use Rattle.lists.specs.Held as spec;
ghost use Rattle.lists.specs.Held.{opened_of, OpensTo};

use exponents::refusals::Refusal;
use tables::pages::Columns;
use tables::{Admitted, Items, Rejected, Slots};
use units::{Factors, Rows};

// Two resolved lists and the table's base rows.
#[derive(Clone, Copy, Drop)]
pub struct Opened {
    pub a: Items,
    pub b: Items,
    pub slots: Slots,
}

// Two lists over an admitted table.
pub fn open_over(
    t: Result<Admitted, Rejected>,
    columns: &Columns,
    a: Factors,
    b: Factors,
) -> Result<Opened, Refusal>
    ensures { (rows : Rowsᵛ) → AdmitsIn rows t columns.now → result ≡ opened_of (base_rows rows) (spec.opening rows a b) }
{
    let t = t?;
    let none = tables::no_items();
    let l = resolution::resolve(t.len, columns, a, b, none)?;
    Ok(Opened {
        a: l.a,
        b: l.b,
        slots: t.slots,
    })
}

// A table alone, checked.
pub fn admitted(rows: Rows) -> Result<Admitted, Rejected>
    ensures { result ≡ admitted_of (base_rows rows) (admit rows) }
{
    let mut columns = Columns::zeros();
    tables::admission::admit(rows, &mut columns)
}

// A table and two lists, opened; what is known of the table's rows is left in columns, which have to be new.
pub fn open_lists(
    rows: Rows,
    a: Factors,
    b: Factors,
    columns: &mut Columns,
) -> Result<Opened, Refusal>
    requires { NoughtIn columns.old }
    ensures { OpensTo rows a b result columns.new }
{
    let t = tables::admission::admit(rows, columns);
    open_over(t, columns, a, b)
}

// The factors of a resolved list.
pub fn factors_of(l: Items) -> Factors
    ensures { (v : View) (fs : List Factorᵛ) → Resolved v l fs → result ≡ pack fs }
{
    let n = reduction::bases::capped(l.len);
    let mut o = units::lists::empty();
    for i in 0..n {
        o.at[i] = l.at[i].factor;
        o.len = i + 1;
    }
    o
}
