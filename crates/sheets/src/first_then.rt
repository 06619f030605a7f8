// A scale that is made of two.
ghost use Rattle.sheets.specs.Scaling.{first_then};
ghost use Rattle.sheets.specs.laws.Scales.{first_then_laws};

use crate::part::PartSheet;
use crate::scale::Scale;

// Costs are pairs, and the first part is compared before the second.
#[derive(Drop)]
pub struct FirstThen<S, T> {
    // Its costs are compared before those of the other.
    pub first: S,
    // Its costs decide where those of the first are the same.
    pub then: T,
}

impl<S: Scale, T: Scale> Scale for FirstThen<S, T> {
    type Cost = (S::Cost, T::Cost);

    ghost scaling = { λ b. first_then (S.Scale.scaling b.first) (T.Scale.scaling b.then) };

    ghost keeps_laws = { λ b. first_then_laws (S.Scale.scaling b.first) (T.Scale.scaling b.then) (S.Scale.keeps_laws b.first) (T.Scale.keeps_laws b.then) };

    fn floor(&self, part: PartSheet) -> (S::Cost, T::Cost) {
        (self.first.floor(part), self.then.floor(part))
    }

    fn below(&self, a: (S::Cost, T::Cost), b: (S::Cost, T::Cost)) -> bool {
        self.first.below(a.0, b.0) || !self.first.below(b.0, a.0) && self.then.below(a.1, b.1)
    }

    fn same(&self, a: (S::Cost, T::Cost), b: (S::Cost, T::Cost)) -> bool {
        self.first.same(a.0, b.0) && self.then.same(a.1, b.1)
    }
}
