// A judge that is made of two.
ghost use Rattle.sheets.specs.Judging.{both};
ghost use Rattle.sheets.specs.laws.Judges.{both_laws};

use crate::judge::Judge;
use crate::part::PartSheet;

// Allows the sheets that both judges allow.
#[derive(Drop)]
pub struct Both<J, K> {
    // Asked first.
    pub first: J,
    // Asked where the first does not call the part-sheet dead.
    pub second: K,
}

impl<J: Judge, K: Judge> Judge for Both<J, K> {
    ghost judging = { λ b. both (J.Judge.judging b.first) (K.Judge.judging b.second) };

    ghost keeps_laws = { λ b. both_laws (J.Judge.judging b.first) (K.Judge.judging b.second) (J.Judge.keeps_laws b.first) (K.Judge.keeps_laws b.second) };

    // The smaller of the two counts.
    fn count(&self) -> u8 {
        self.first.count().min(self.second.count())
    }

    // At least one of the two calls the part-sheet dead.
    fn dead(&self, part: PartSheet) -> bool {
        self.first.dead(part) || self.second.dead(part)
    }
}
