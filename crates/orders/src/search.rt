// Where a search stands.
ghost use Rattle.std.specs.Prelude.{◌≡◌, ◌+◌, ◌<◌, false};
ghost use Rattle.sheets.specs.Sheets.{width};
ghost use Rattle.orders.specs.Searches.{start, dismissed, present_at, absent_at};

use sheets::{PartSheet, Sheet, first_marks, has_mark};
use std::marker::Model;

// Where a search stands. `finished` is no tag of the other fields: a finished search shows its place and its sheet too.
#[derive(Clone, Copy, Debug, PartialEq, Eq)]
pub struct Search {
    // The place decides the first `depth` marks, of which those in `present` are present and the others absent.
    pub(crate) depth: u8,
    pub(crate) present: Sheet,
    // The sheet that is held, if there is one.
    pub(crate) held: Option<Sheet>,
    // No step remains.
    pub(crate) finished: bool,
}

// Contracts see the fields. No more marks are decided than a sheet has, and only decided ones are present.
impl Model for Search {
    ghost use Rattle.std.specs.Prelude.{◌^◌, ◌<◌, ◌≤◌};
    ghost use Rattle.sheets.specs.Sheets.{width};
    ghost use Rattle.orders.specs.Search.{Search as SearchModel};

    ghost Value = { SearchModel };

    ghost view = { λ s. record { depth = s.depth; present = s.present; held = s.held; finished = s.finished } };

    ghost inverse = { λ s. record { depth = s.depth; present = s.present; held = s.held; finished = s.finished } };

    ghost invariant = { λ s. (s.depth ≤ width) × (s.present < 2 ^ s.depth) };
}

impl Search {
    // Nothing is decided, and no sheet is held.
    pub(crate) fn start() -> Search
        ensures { result ≡ start }
    {
        Search {
            depth: 0,
            present: 0,
            held: None,
            finished: false,
        }
    }

    // The place as a part-sheet: the marks from the count upward are absent.
    #[tactic(auto, unfolding(crate::specs::Searches::present_at, crate::specs::Searches::absent_at))]
    pub(crate) fn place(self, count: u8) -> PartSheet
        ensures present { result.present ≡ present_at count self }
        ensures absent { result.absent ≡ absent_at count self }
    {
        PartSheet::deciding(first_marks(self.depth) | !first_marks(count), self.present)
    }

    // Drops the trailing present decisions, then turns the last absent one into present; the sheet is held from then on.
    pub(crate) fn dismiss(self, held: Option<Sheet>) -> Search
        ensures { result ≡ dismissed self.depth self.present held }
    {
        let mut present = self.present;
        for last in (0..self.depth).rev() {
            let bit: Sheet = 1 << last;
            if !has_mark(present, last) {
                return Search {
                    depth: last + 1,
                    present: present | bit,
                    held,
                    finished: false,
                };
            }
            present -= bit;
        }
        Search {
            depth: 0,
            present: 0,
            held,
            finished: true,
        }
    }

    // Decides the next mark absent.
    pub(crate) fn deepen(self) -> Search
        requires { self.depth < width }
        ensures { result ≡ record { depth = self.depth + 1; present = self.present; held = self.held; finished = false } }
    {
        Search {
            depth: self.depth + 1,
            present: self.present,
            held: self.held,
            finished: false,
        }
    }
}
