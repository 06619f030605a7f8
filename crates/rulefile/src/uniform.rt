// Elements of one weight, whose sum is counted.
ghost use Rattle.std.specs.Prelude.{◌≡◌, List, map, cond, IfSome};
ghost use Rattle.std.specs.List.{sum_by};
ghost use Rattle.sheets.specs.Literals.{held};
ghost use Rattle.sheets.specs.LiteralSets.{MarksInWidth};
ghost use Rattle.rulefile.specs.declared.constraints.Element.{Element};
ghost use Rattle.rulefile.specs.Uniform.{literals_of, AreUniform};

use crate::constraints::Element;
use sheets::{Interpretation, LiteralSet};

// The weight and the literals of elements that all have this weight, and of which none stands twice.
#[derive(Clone, Copy, Debug, PartialEq, Eq)]
pub struct Uniform {
    // The weight of each.
    weight: u16,
    // The literals of all.
    literals: LiteralSet,
}

impl Uniform {
    // The elements as such, unless there are none, two weights differ or one literal stands twice. Of none the sum is found
    // sooner by going through them.
    pub(crate) fn of(elements: &[Element]) -> Option<Uniform>
        ensures { MarksInWidth (literals_of elements.now) → IfSome result (AreUniform elements.now) }
    {
        let weight = elements.first()?.weight;
        let mut literals = LiteralSet::empty();
        // A `for`: it ends at the first element that does not fit.
        for element in elements {
            if element.weight != weight || literals.has(element.literal) {
                return None;
            }
            literals = literals.with(element.literal);
        }
        Some(Uniform { weight, literals })
    }

    // The weights of the elements that are held.
    pub fn sum(self, by: Interpretation) -> u32
        ensures { (es : List Element) → AreUniform es self → result ≡ sum_by (λ e. cond (held by e.literal) e.weight 0) es }
    {
        u32::from(self.weight) * self.literals.count_held(by)
    }
}
