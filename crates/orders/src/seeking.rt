// Seeking orders: the search for the cheapest sheet.
ghost use Rattle.std.specs.Prelude.{◌≡◌};
ghost use Rattle.orders.specs.Searches.{priced};
ghost use Rattle.orders.specs.Best.{Best, CostsAtMost};
ghost use Rattle.orders.specs.Calls.{Advanced, ShowsCheapest, Settling, Reached};
ghost use Rattle.orders.specs.Models.{held_to};

use crate::calls::Progress;
use crate::marking::Marking;
use crate::search::Search;
use crate::settled::Settled;
use crate::steps::Walk;
use sheets::{Judge, Scale};

// A marking order whose search goes on.
#[derive(Drop)]
pub struct Seeking<J: Judge, S: Scale> {
    // What it withdraws to.
    pub(crate) marking: Marking<J, S>,
    // Where its search stands.
    pub(crate) search: Search,
    // The defined steps led there from the start.
    ghost reached: { ∥ Reached (held_to J.judging marking.acts) (S.scaling marking.scale) search ∥₁ },
}

impl<J: Judge, S: Scale> Seeking<J, S> {
    // Takes so many steps, or those that remain if fewer.
    pub fn advance(&mut self, most: u16) -> Progress<S::Cost>
        ensures search { Advanced (held_to J.judging self.old.marking.acts) (S.scaling self.old.marking.scale) most self.old.search result self.new.search }
        ensures cheapest { ShowsCheapest (held_to J.judging self.old.marking.acts) (S.scaling self.old.marking.scale) result }
        ensures falls { CostsAtMost (S.scaling self.old.marking.scale) result.held (priced (S.scaling self.old.marking.scale) self.old.search.held) }
        ensures marking { self.new.marking ≡ self.old.marking }
    {
        let Marking { acts, scale } = &self.marking;
        let mut walk = Walk::begin(acts, scale, self.search);
        let taken = walk.take(most);
        let search = walk.search;
        self.search = search;
        Progress {
            steps: taken,
            finished: search.finished,
            place: search.place(acts.count()),
            held: walk.held,
        }
    }

    // Takes the steps that remain.
    pub fn settle(self) -> Settled<J, S>
        ensures search { Settling (held_to J.judging self.marking.acts) (S.scaling self.marking.scale) self.search result.held }
        ensures best { Best (held_to J.judging self.marking.acts) (S.scaling self.marking.scale) (priced (S.scaling self.marking.scale) result.held) }
        ensures falls { CostsAtMost (S.scaling self.marking.scale) (priced (S.scaling self.marking.scale) result.held) (priced (S.scaling self.marking.scale) self.search.held) }
        ensures marking { result.marking ≡ self.marking }
    {
        let Seeking { marking, search } = self;
        let mut walk = Walk::begin(&marking.acts, &marking.scale, search);
        walk.finish();
        let held = walk.search.held;
        Settled { marking, held }
    }

    // Leaves the search; the acts still stand.
    pub fn withdraw(self) -> Marking<J, S>
        ensures { result ≡ self.marking }
    {
        self.marking
    }
}
