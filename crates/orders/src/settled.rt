// Settled orders: the sheet that the search ended on.
ghost use Rattle.std.specs.Prelude.{◌≡◌};
ghost use Rattle.orders.specs.Searches.{priced};
ghost use Rattle.orders.specs.Best.{Best};
ghost use Rattle.orders.specs.Models.{held_to};

use crate::marking::Marking;
use crate::steps::with_cost;
use sheets::{Judge, Scale, Sheet};

// A marking order whose search has ended, and the sheet that was held then.
#[derive(Drop)]
pub struct Settled<J: Judge, S: Scale> {
    // What it reopens to.
    pub(crate) marking: Marking<J, S>,
    // The sheet that the search held at its end, if there was one.
    pub(crate) held: Option<Sheet>,
    // It is the best.
    ghost best: { ∥ Best (held_to J.judging marking.acts) (S.scaling marking.scale) (priced (S.scaling marking.scale) held) ∥₁ },
}

impl<J: Judge, S: Scale> Settled<J, S> {
    // The sheet that was held at the end and its cost, or no sheet.
    pub fn answer(&self) -> Option<(Sheet, S::Cost)>
        ensures value { result ≡ priced (S.scaling self.now.marking.scale) self.now.held }
        ensures best { Best (held_to J.judging self.now.marking.acts) (S.scaling self.now.marking.scale) result }
    {
        with_cost(&self.marking.scale, self.held)
    }

    // Leaves the sheet; the acts still stand.
    pub fn reopen(self) -> Marking<J, S>
        ensures { result ≡ self.marking }
    {
        self.marking
    }
}
