// A judge that allows by a table.
ghost use Rattle.std.specs.Prelude.{◌≡◌, ◌≤◌, true, MatchOption};
ghost use Rattle.std.specs.List.{list_all, list_any};
ghost use Rattle.sheets.specs.Sheets.{width, within_count};
ghost use Rattle.orders_tests.specs.Tables.{lies_within, table_of};
ghost use Rattle.orders_tests.specs.laws.Listed.{table_laws};

use anyhow::Context;
use sheets::{Judge, PartSheet, Sheet, WIDTH, within_count};
use std::alloc::Global;

// Allows exactly the listed sheets.
#[derive(Drop)]
pub struct Table {
    count: u8,
    listed: Vec<Sheet>,
    ghost some: { 1 ≤ count },
    ghost few: { count ≤ width },
    ghost inside: { list_all (within_count count) listed.items ≡ true },
}

impl Table {
    // None where the count is not from 1 to `WIDTH`, or a sheet has a mark that is not below it.
    pub fn new(count: u8, listed: Vec<Sheet>) -> Option<Table>
        ensures { MatchOption result ((1 ≤ count) → (count ≤ width) → list_all (within_count count) listed.items ≡ true → ⊥) (λ table. (table.count ≡ count) × (table.listed ≡ listed)) }
    {
        if (1..=WIDTH).contains(&count) && are_below(listed.as_slice(), count) {
            Some(Table { count, listed })
        } else {
            None
        }
    }
}

// The table of these sheets.
pub fn table_of(heap: Global, count: u8, listed: &[Sheet]) -> anyhow::Result<Table> {
    Table::new(count, Vec::from_slice(heap, listed)?).context("the table is refused")
}

// Each of the sheets has only marks below the count.
fn are_below(listed: &[Sheet], count: u8) -> bool
    ensures { result ≡ list_all (within_count count) listed.now }
{
    listed.iter().all(|sheet| within_count(*sheet, count))
}

// The sheet has every present mark and no absent one.
fn lies_within(sheet: Sheet, present: Sheet, absent: Sheet) -> bool
    ensures { result ≡ lies_within present absent sheet }
{
    present & sheet == present && absent & sheet == 0
}

// One of the sheets lies within the part-sheet of these marks.
fn is_one_within(listed: &[Sheet], present: Sheet, absent: Sheet) -> bool
    ensures { result ≡ list_any (lies_within present absent) listed.now }
{
    listed
        .iter()
        .any(|sheet| lies_within(*sheet, present, absent))
}

impl Judge for Table {
    ghost judging = { λ t. table_of t.count t.listed.items };

    ghost keeps_laws = { λ t. table_laws t.count t.listed.items t.some t.few t.inside };

    fn count(&self) -> u8 {
        self.count
    }

    // No listed sheet lies within.
    fn dead(&self, part: PartSheet) -> bool {
        !is_one_within(self.listed.as_slice(), part.present(), part.absent())
    }
}
