// The distance from the house sheet, as a scale.
ghost use Rattle.std.specs.Prelude.{◌≡◌, IfOk};
ghost use Rattle.rulefile.specs.Format.{decode, file_or_head_alone};
ghost use Rattle.scales.specs.Distances.{distance_of};
ghost use Rattle.scales.specs.laws.Counts.{distance_laws};

use rulefile::read_or_head_alone;
use sheets::{PartSheet, Scale, Sheet};
use std::alloc::{AllocError, Global};

// Costs a sheet by the number of marks in which it differs from the house sheet.
#[derive(Clone, Copy)]
pub struct Distance {
    // The sheet from which is counted.
    house: Sheet,
}

impl Distance {
    // The distance from this house sheet.
    pub fn new(house: Sheet) -> Distance
        ensures { result.house ≡ house }
    {
        Distance { house }
    }

    // The distance from the house sheet of the file that the bytes stand for; refused bytes stand for a head alone, whose
    // house sheet is empty.
    pub fn from_bytes(heap: Global, bytes: &[u8]) -> Result<Distance, AllocError>
        ensures { IfOk result (λ d. d.house ≡ (file_or_head_alone (decode bytes.now)).house) }
    {
        let file = read_or_head_alone(heap, bytes)?;
        Ok(Distance::new(file.house))
    }

    // How many marks one of the sheet and the house sheet has and the other lacks.
    pub fn cost(&self, sheet: Sheet) -> u32
        ensures { result ≡ (distance_of self.now.house).cost sheet }
    {
        (sheet ^ self.house).count_ones()
    }
}

impl Scale for Distance {
    type Cost = u32;

    ghost scaling = { λ d. distance_of d.house };

    ghost keeps_laws = { λ d. distance_laws d.house };

    // Only decided marks count.
    fn floor(&self, part: PartSheet) -> u32 {
        let decided = part.present() | part.absent();
        (decided & (part.present() ^ self.house)).count_ones()
    }

    fn below(&self, a: u32, b: u32) -> bool {
        a < b
    }

    fn same(&self, a: u32, b: u32) -> bool {
        a == b
    }
}
