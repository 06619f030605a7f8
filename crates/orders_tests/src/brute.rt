// The best sheet, by going through all of them.
use orders::Act;
use sheets::{Mark, PartSheet, Sheet, first_marks};

// Of two costs the first parts are compared before the second.
#[derive(Clone, Copy, PartialEq, Eq, PartialOrd, Ord)]
pub struct Cost(u64, u64);

impl From<u64> for Cost {
    fn from(first: u64) -> Cost {
        Cost(first, 0)
    }
}

impl From<(u64, u64)> for Cost {
    fn from(parts: (u64, u64)) -> Cost {
        Cost(parts.0, parts.1)
    }
}

// What an order allows and what its sheets cost, by means of the program's own.
#[derive(Drop)]
pub struct Case {
    pub count: u8,
    pub allowed: Vec<Sheet>,
    // The marks that count in the first part of a cost, and in the second.
    pub first: Sheet,
    pub second: Sheet,
}

impl Case {
    pub fn cost(&self, sheet: Sheet) -> Cost {
        Cost(sheet & self.first, sheet & self.second)
    }
}

// The program's own test of a mark, since it stands for what the engine is held against. Only that all sheets are gone
// through rests on the engine's `first_marks`, which is proved.
fn is_in(sheet: Sheet, mark: Mark) -> bool {
    mark < 64 && (sheet >> mark) & 1 == 1
}

// The sheet keeps the act.
fn keeps(act: Act, sheet: Sheet) -> bool {
    match act {
        Act::Pin(mark) => is_in(sheet, mark),
        Act::Bar(mark) => !is_in(sheet, mark),
        Act::Strike(struck) => sheet != struck,
    }
}

// A number by which sheets are ordered: the earlier of two lacks the lowest mark on which they differ.
fn turn_of(sheet: Sheet) -> u64 {
    sheet.reverse_bits()
}

// The two differ, and the sheet lacks the lowest mark on which they do. Not by `turn_of`: this is asked of each sheet for each
// advance.
fn is_earlier(sheet: Sheet, other: Sheet) -> bool {
    let differ = sheet ^ other;
    differ != 0 && sheet & differ & differ.wrapping_neg() == 0
}

// The sheets that a case allows and that keep the acts.
#[derive(Clone, Copy)]
pub struct OpenSheets<'a> {
    pub case: &'a Case,
    pub acts: &'a [Act],
}

impl OpenSheets<'_> {
    pub fn has(self, sheet: Sheet) -> bool {
        self.case.allowed.contains(&sheet) && self.acts.iter().all(|act| keeps(*act, sheet))
    }

    // The cheapest of them with its cost, of equals the earliest.
    pub fn best(self) -> Option<(Sheet, Cost)> {
        (0..=first_marks(self.case.count))
            .filter(|sheet| self.has(*sheet))
            .map(|sheet| (sheet, self.case.cost(sheet)))
            .min_by_key(|best| (best.1, turn_of(best.0)))
    }

    // One of them lies before the place and costs less than the limit; with no limit, one that lies there.
    pub fn is_missed(self, place: PartSheet, limit: Option<Cost>) -> bool {
        let decided = place.present() | place.absent();
        (0..=first_marks(self.case.count)).any(|sheet| {
            limit.is_none_or(|cost| self.case.cost(sheet) < cost)
                && is_earlier(sheet & decided, place.present())
                && self.has(sheet)
        })
    }
}
