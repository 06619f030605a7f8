// What is known of a sheet.
ghost use Rattle.std.specs.Prelude.{◌≡◌, ◌↔◌, IsTrue, MatchOption, bit_and};
ghost use Rattle.sheets.specs.Sheets.{others, Apart, full, Full};
ghost use Rattle.sheets.specs.Literals.{in_every, in_some};

use crate::literals::Interpretation;
use crate::marks::Sheet;

// The marks that are present, and those that are absent; the others are undecided.
#[derive(Clone, Copy, Debug, PartialEq, Eq)]
pub struct PartSheet {
    present: Sheet,
    absent: Sheet,
    ghost apart: { bit_and present absent ≡ 0 },
}

impl PartSheet {
    // The part-sheet with these marks present and absent; none where a mark is both.
    pub fn new(present: Sheet, absent: Sheet) -> Option<PartSheet>
        ensures { MatchOption result (Apart present absent → ⊥) (λ part. Apart present absent × (part.present ≡ present) × (part.absent ≡ absent)) }
    {
        if present & absent == 0 {
            Some(PartSheet { present, absent })
        } else {
            None
        }
    }

    // The full part-sheet that stands for the sheet.
    pub fn of_sheet(sheet: Sheet) -> PartSheet
        ensures present { result.present ≡ sheet }
        ensures absent { result.absent ≡ others sheet }
    {
        PartSheet {
            present: sheet,
            absent: !sheet,
        }
    }

    // The part-sheet that decides these marks: present are those of them in `present`, and absent the others.
    pub fn deciding(decided: Sheet, present: Sheet) -> PartSheet
        ensures present { result.present ≡ bit_and present decided }
        ensures absent { result.absent ≡ bit_and (others present) decided }
    {
        PartSheet {
            present: present & decided,
            absent: !present & decided,
        }
    }

    // The marks that are present.
    pub fn present(self) -> Sheet
        ensures { result ≡ self.present }
    {
        self.present
    }

    // The marks that are absent.
    pub fn absent(self) -> Sheet
        ensures { result ≡ self.absent }
    {
        self.absent
    }

    // What is held by it holds in every sheet within.
    pub fn sure(self) -> Interpretation
        ensures { result ≡ in_every self.present self.absent }
    {
        Interpretation {
            plain: self.present,
            negated: !self.absent,
        }
    }

    // What is held by it holds in some sheet within.
    pub fn possible(self) -> Interpretation
        ensures { result ≡ in_some self.present self.absent }
    {
        Interpretation {
            plain: !self.absent,
            negated: self.present,
        }
    }

    // Each mark is present or absent.
    pub fn is_full(self) -> bool
        ensures value { result ≡ full self.present self.absent }
        ensures meaning { IsTrue result ↔ Full self.present self.absent }
    {
        let decided = self.present | self.absent;
        decided == Sheet::MAX
    }
}
