// What an order is held to, and why a call is refused.
ghost use Rattle.std.specs.Prelude.{◌≡◌};
ghost use Rattle.orders.specs.Acts.{pins_or_bars, strikes, is_broken_by};
ghost use Rattle.orders.specs.Numbers.{number};

use sheets::{Mark, PartSheet, Sheet, has_mark};

// One thing that the sheets of an order keep.
#[derive(Clone, Copy, Debug, PartialEq, Eq)]
pub enum Act {
    // The mark is there.
    Pin(Mark),
    // The mark is not there.
    Bar(Mark),
    // It is not this sheet.
    Strike(Sheet),
}

impl Act {
    // It pins or bars the mark.
    pub(crate) fn pins_or_bars(self, mark: Mark) -> bool
        ensures { result ≡ pins_or_bars mark self }
    {
        self == Act::Pin(mark) || self == Act::Bar(mark)
    }

    // It strikes the sheet.
    pub(crate) fn strikes(self, sheet: Sheet) -> bool
        ensures { result ≡ strikes sheet self }
    {
        self == Act::Strike(sheet)
    }

    // The part-sheet has the pinned mark absent or the barred one present, or stands for the struck sheet: no sheet within it
    // keeps the act.
    pub(crate) fn is_broken_by(self, part: PartSheet) -> bool
        ensures { result ≡ is_broken_by part.present part.absent self }
    {
        match self {
            Act::Pin(mark) => has_mark(part.absent(), mark),
            Act::Bar(mark) => has_mark(part.present(), mark),
            Act::Strike(sheet) => part.present() == sheet && part.is_full(),
        }
    }
}

// Why a call is refused, with the number by which it is known. No `Display`: programs print the number alone.
#[derive(Clone, Copy, Debug, PartialEq, Eq)]
pub enum Refusal {
    // A mark is not below the count.
    MarkRange = 21,
    // The mark is already pinned or barred.
    MarkTaken = 22,
    // The sheet is already struck.
    SheetStruck = 24,
    // As many acts stand as can.
    DocketFull = 25,
    // No act stands.
    DocketEmpty = 26,
}

impl Refusal {
    // Its number. One line in each crate that refuses: each promises the numbers of its own cases.
    pub fn number(self) -> u8
        ensures { result ≡ number self }
    {
        self as u8
    }
}
