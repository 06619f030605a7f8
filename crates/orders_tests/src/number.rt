// A scale by the sheet as a number. It is short like the distance, but its floor and its cost are others.
ghost use Rattle.std.specs.Prelude.{◌≡◌};
ghost use Rattle.orders_tests.specs.Numbers.{number_of};
ghost use Rattle.orders_tests.specs.laws.Numbered.{number_laws};

use sheets::{PartSheet, Scale, Sheet};

// Costs a sheet by those of its marks that count, as a number. Sheets that differ only in other marks cost the same.
#[derive(Clone, Copy)]
pub struct Number {
    counted: Sheet,
}

impl Number {
    pub fn new(counted: Sheet) -> Number
        ensures { result.counted ≡ counted }
    {
        Number { counted }
    }
}

impl Scale for Number {
    type Cost = u64;

    ghost scaling = { λ n. number_of n.counted };

    ghost keeps_laws = { λ n. number_laws n.counted };

    // Each sheet within has the present marks.
    fn floor(&self, part: PartSheet) -> u64 {
        part.present() & self.counted
    }

    fn below(&self, a: u64, b: u64) -> bool {
        a < b
    }

    fn same(&self, a: u64, b: u64) -> bool {
        a == b
    }
}
