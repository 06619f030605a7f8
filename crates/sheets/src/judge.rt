// Judges of sheets.
ghost use Rattle.std.specs.Prelude.{◌≡◌};
ghost use Rattle.sheets.specs.Judging.{Judging, JudgeLaws};

use crate::part::PartSheet;

// Allows some sheets, and calls part-sheets dead within which no allowed sheet lies.
pub trait Judge {
    // Its count, the sheets that it allows and the part-sheets that it calls dead.
    ghost judging: { Self → Judging };

    // From 1 to `WIDTH`: an allowed sheet has only marks below the count.
    fn count(&self) -> u8
        ensures { result ≡ (judging self.now).count };

    // It calls the part-sheet dead.
    fn dead(&self, part: PartSheet) -> bool
        ensures { result ≡ (judging self.now).dead part.present part.absent };

    // It keeps the laws of a judge.
    ghost keeps_laws: { (j : Self) → JudgeLaws (judging j) };
}
