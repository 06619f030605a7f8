// The wishes of a file, as a scale.
ghost use Rattle.std.specs.Prelude.{◌≡◌, ◌↔◌, ℕ, IsTrue, IfOk};
ghost use Rattle.rulefile.specs.Format.{decode, file_or_head_alone};
ghost use Rattle.scales.specs.Levels.{wishes_of, levels_of, cheaper};
ghost use Rattle.scales.specs.Wishes.{level_cost, cost_at, Dominates};
ghost use Rattle.scales.specs.laws.Sums.{levels_laws};

use crate::cost::LevelCost;
use crate::wishes::level_floors;
use rulefile::{RuleFile, read_or_head_alone};
use sheets::{PartSheet, Scale, Sheet};
use std::alloc::{AllocError, Global};
use std::rc::Rc;

// Costs a sheet by the wishes of a file, which it shares with judges and other scales.
#[derive(Drop)]
pub struct Levels {
    // Its wishes are what a sheet costs.
    file: Rc<RuleFile>,
}

impl Levels {
    // The wishes of the file.
    pub fn new(file: Rc<RuleFile>) -> Levels
        ensures { result.file ≡ file }
    {
        Levels { file }
    }

    // The wishes of the file that the bytes stand for; refused bytes stand for a head alone, which has none.
    pub fn from_bytes(heap: Global, bytes: &[u8]) -> Result<Levels, AllocError>
        ensures { IfOk result (λ l. wishes_of l ≡ (file_or_head_alone (decode bytes.now)).wishes) }
    {
        let file = read_or_head_alone(heap, bytes)?;
        Ok(Levels::new(Rc::new(heap, file)?))
    }

    // At each level, the sum of the weights of the weak constraints that hold in the sheet: a wish without a tag counts by
    // itself, and a group of wishes once.
    pub fn cost(&self, sheet: Sheet) -> LevelCost
        ensures value { result ≡ (levels_of (wishes_of self.now)).cost sheet }
        ensures sums { (n : ℕ) → cost_at result.levels n ≡ level_cost sheet (wishes_of self.now) n }
    {
        self.floor(PartSheet::of_sheet(sheet))
    }

    // The cost of the one sheet is below that of the other; that is, the one dominates the other.
    pub fn dominates(&self, sheet: Sheet, other: Sheet) -> bool
        ensures value { result ≡ cheaper (wishes_of self.now) sheet other }
        ensures meaning { IsTrue result ↔ Dominates (wishes_of self.now) sheet other }
    {
        self.below(self.cost(sheet), self.cost(other))
    }
}

impl Scale for Levels {
    type Cost = LevelCost;

    ghost scaling = { λ l. levels_of (wishes_of l) };

    ghost keeps_laws = { λ l. levels_laws (wishes_of l) };

    fn floor(&self, part: PartSheet) -> LevelCost {
        LevelCost {
            levels: level_floors(&self.file, part),
        }
    }

    fn below(&self, a: LevelCost, b: LevelCost) -> bool {
        a < b
    }

    fn same(&self, a: LevelCost, b: LevelCost) -> bool {
        a == b
    }
}
