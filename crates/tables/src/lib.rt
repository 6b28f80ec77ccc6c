// Tables: admission of rows, and lists resolved against an admitted table (01, "Records and sizes", "The refusals").
// `admission`: `admit`. `no_items`: the empty resolved list.
#![tactic(auto)]

ghost use Rattle.std.specs.Prelude.{◌≡◌, []};
ghost use Rattle.tables.specs.Held.{packed};

use exponents::Exponent;
use exponents::refusals::Refusal;
use units::Factor;

pub mod ranked; // the base rows in rank order
pub mod scales; // powers of a scale
pub mod pages; // what is known of all rows, as plain numbers
pub mod rows; // one row worked out
pub mod admission; // the table's rows in row order

// A base row: its number and its rank.
#[derive(Clone, Copy, Drop)]
pub struct Slot {
    pub row: u32,
    pub rank: u16,
}

// The base rows in rank order.
#[derive(Clone, Copy, Drop)]
pub struct Slots {
    pub at: [Slot; 16],
    // Kept: no heap, so a buffer of a fixed size and how many of its places hold something.
    pub len: usize,
}

// What is known of an admitted row: its base exponents in the order of the slots, scale, rank and kind.
#[derive(Clone, Copy, Drop)]
pub struct Known {
    pub exps: [Exponent; 16],
    pub scale: f64,
    pub rank: u16,
    pub base: bool,
}

// The base rows and the number of rows of an admitted table.
#[derive(Clone, Copy, Drop)]
pub struct Admitted {
    pub slots: Slots,
    pub len: usize,
}

// Why a table is refused, and how many rows stood before the fault.
#[derive(Clone, Copy, Drop)]
pub struct Rejected {
    pub refusal: Refusal,
    pub len: usize,
}

impl From<Rejected> for Refusal {
    ghost from_gives = { λ j r. r ≡ j.refusal };

    fn from(rejected: Rejected) -> Refusal {
        rejected.refusal
    }
}

// A factor with what is known of its row: its scale, its place in the order of rows and its key's class among the rows of
// the call, and whether it is base. Its base exponents stay in the table's columns, by the row's number: lists are copied often.
#[derive(Clone, Copy, Drop)]
pub struct Item {
    pub factor: Factor,
    pub scale: f64,
    pub place: u32,
    pub class: u32,
    pub base: bool,
}

// A resolved list.
#[derive(Clone, Copy, Drop)]
pub struct Items {
    pub at: [Item; 16],
    // Kept: no heap, so a buffer of a fixed size and how many of its places hold something.
    pub len: usize,
}

// The empty list.
#[tactic(auto, unfolding(crate::specs::Held::packed))]
pub fn no_items() -> Items
    ensures { result ≡ packed [] }
{
    let f = units::lists::no_factor();
    let none = Item {
        factor: f,
        scale: 1.0,
        place: 0,
        class: 0,
        base: false,
    };
    Items {
        at: [none; 16],
        len: 0,
    }
}
