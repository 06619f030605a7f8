// A judge that is made of a judge, a scale and one cost.
ghost use Rattle.sheets.specs.Ceilings.{with_ceiling};
ghost use Rattle.sheets.specs.laws.Ceilings.{ceiling_laws};

use crate::judge::Judge;
use crate::part::PartSheet;
use crate::scale::Scale;

// Allows the sheets that the judge below allows and that do not cost more than the ceiling.
#[derive(Drop)]
pub struct Ceiling<J, S: Scale> {
    // The judge below.
    pub judge: J,
    // By which sheets cost.
    pub scale: S,
    // The highest cost that is allowed.
    pub ceiling: S::Cost,
}

impl<J: Judge, S: Scale> Judge for Ceiling<J, S> {
    ghost judging = { λ c. with_ceiling (J.Judge.judging c.judge) (S.Scale.scaling c.scale) c.ceiling };

    ghost keeps_laws = { λ c. ceiling_laws (J.Judge.judging c.judge) (S.Scale.scaling c.scale) c.ceiling (J.Judge.keeps_laws c.judge) (S.Scale.keeps_laws c.scale) };

    // The count of the judge below.
    fn count(&self) -> u8 {
        self.judge.count()
    }

    // The judge below calls the part-sheet dead, or the ceiling is below its floor.
    fn dead(&self, part: PartSheet) -> bool {
        self.judge.dead(part) || self.scale.below(self.ceiling, self.scale.floor(part))
    }
}
