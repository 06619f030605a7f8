// Scales of sheets.
ghost use Rattle.std.specs.Prelude.{◌≡◌, ◌↔◌, IsTrue};
ghost use Rattle.sheets.specs.Scaling.{Scaling, ScaleLaws};

use crate::part::PartSheet;

// Says what each sheet costs, and what the sheets within a part-sheet cost at least. It compares costs itself, and not by
// `Ord` of their type: two scales may order one kind of cost in two ways.
pub trait Scale {
    // What sheets cost.
    type Cost: Copy;

    // The cost of each sheet, the floor of each part-sheet, and the order of costs.
    ghost scaling: { Self → Scaling Self.Cost };

    // No sheet within the part-sheet costs less; a full part-sheet has the cost of its sheet.
    fn floor(&self, part: PartSheet) -> Self::Cost
        ensures { result ≡ (scaling self.now).floor part.present part.absent };

    // The first cost is less than the second.
    fn below(&self, a: Self::Cost, b: Self::Cost) -> bool
        ensures { result ≡ (scaling self.now).below a b };

    // The costs are equal.
    fn same(&self, a: Self::Cost, b: Self::Cost) -> bool
        ensures { IsTrue result ↔ (a ≡ b) };

    // It keeps the laws of a scale.
    ghost keeps_laws: { (s : Self) → ScaleLaws (scaling s) };
}

// A scale that is lent is a scale too, so that an order and a judge can share one.
impl<S: Scale> Scale for &S {
    type Cost = S::Cost;

    ghost scaling = { λ s. S.Scale.scaling s.now };

    ghost keeps_laws = { λ s. S.Scale.keeps_laws s.now };

    fn floor(&self, part: PartSheet) -> S::Cost {
        (**self).floor(part)
    }

    fn below(&self, a: S::Cost, b: S::Cost) -> bool {
        (**self).below(a, b)
    }

    fn same(&self, a: S::Cost, b: S::Cost) -> bool {
        (**self).same(a, b)
    }
}
