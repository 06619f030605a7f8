// The steps of a search.
ghost use Rattle.std.specs.Prelude.{◌≡◌, ◌||◌};
ghost use Rattle.orders.specs.Searches.{floor_not_below, stepped, Walked, Ended, priced};

use crate::search::Search;
use sheets::{Judge, PartSheet, Scale, Sheet};

// What the sheet costs.
fn sheet_cost<S: Scale>(scale: &S, sheet: Sheet) -> S::Cost
    ensures { result ≡ (S.scaling scale.now).cost sheet }
{
    scale.floor(PartSheet::of_sheet(sheet))
}

// The sheet that is held with its cost, if there is one. The option is taken apart by a pattern, by a rule of the project.
pub(crate) fn with_cost<S: Scale>(scale: &S, held: Option<Sheet>) -> Option<(Sheet, S::Cost)>
    ensures { result ≡ priced (S.scaling scale.now) held }
{
    match held {
        Some(sheet) => Some((sheet, sheet_cost(scale, sheet))),
        None => None,
    }
}

// A walk is a search that takes steps: it has the search, its judge and its scale, and the sheet that is held with its
// cost, so that it is not computed again at each step.
#[derive(Drop)]
pub(crate) struct Walk<'a, J, S: Scale> {
    judge: &'a J,
    scale: &'a S,
    pub(crate) search: Search,
    pub(crate) held: Option<(Sheet, S::Cost)>,
    ghost its_cost: { held ≡ priced (S.scaling scale.now) search.held },
}

impl<'a, J: Judge, S: Scale> Walk<'a, J, S> {
    // The search, before a step.
    pub(crate) fn begin(judge: &'a J, scale: &'a S, search: Search) -> Walk<'a, J, S>
        ensures judge { result.judge.now ≡ judge.now }
        ensures scale { result.scale.now ≡ scale.now }
        ensures search { result.search ≡ search }
    {
        Walk {
            judge,
            scale,
            search,
            held: with_cost(scale, search.held),
        }
    }

    // The judge calls the place dead, or a sheet is held and the floor of the place is not below its cost.
    fn is_dismissed(&self, place: PartSheet) -> bool
        ensures { result ≡ ((J.judging self.now.judge.now).dead place.present place.absent || floor_not_below (S.scaling self.now.scale.now) self.now.search.held ((S.scaling self.now.scale.now).floor place.present place.absent)) }
    {
        self.judge.dead(place)
            || match self.held {
                Some((_, cost)) => !self.scale.below(self.scale.floor(place), cost),
                None => false,
            }
    }

    // One step.
    fn step(&mut self)
        ensures judge { self.new.judge ≡ self.old.judge }
        ensures scale { self.new.scale ≡ self.old.scale }
        ensures search { self.new.search ≡ stepped (J.judging self.old.judge.now) (S.scaling self.old.scale.now) self.old.search }
    {
        let search = self.search;
        let held = search.held;
        let place = search.place(self.judge.count());
        if self.is_dismissed(place) {
            self.search = search.dismiss(held);
        } else if place.is_full() {
            let sheet = place.present();
            self.search = search.dismiss(Some(sheet));
            self.held = Some((sheet, sheet_cost(self.scale, sheet)));
        } else {
            self.search = search.deepen();
        }
    }

    // So many steps, or those that remain if fewer; returns how many they were.
    pub(crate) fn take(&mut self, most: u16) -> u16
        ensures steps { Walked (J.judging self.old.judge.now) (S.scaling self.old.scale.now) most self.old.search result self.new.search }
        ensures scale { self.new.scale ≡ self.old.scale }
    {
        for taken in 0..most {
            if self.search.finished {
                return taken;
            }
            self.step();
        }
        most
    }

    // The steps that remain. A `while`: they can be more than a number of 64 bits counts.
    pub(crate) fn finish(&mut self)
        ensures steps { Ended (J.judging self.old.judge.now) (S.scaling self.old.scale.now) self.old.search self.new.search }
        ensures scale { self.new.scale ≡ self.old.scale }
    {
        while !self.search.finished {
            self.step();
        }
    }
}
