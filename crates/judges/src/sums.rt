// The sum of a weight constraint.
ghost use Rattle.std.specs.Prelude.{◌≡◌, ◌≤◌, length};
ghost use Rattle.sheets.specs.Literals.{held};
ghost use Rattle.rulefile.specs.Ranges.{most_elements};
ghost use Rattle.rulefile.specs.Model.{constraint_of};
ghost use Rattle.judges.specs.Programs.{weigh, at_most, satisfied};

use rulefile::{Constraint, Element};
use sheets::{Interpretation, Sheet};

// The weights of the elements that are held.
fn held_weight(elements: &[Element], by: Interpretation) -> u32
    requires { length elements.now ≤ most_elements }
    ensures { result ≡ weigh (held by) elements.now }
{
    // No `filter`, and no `if`: which elements are held is no branch to guess.
    elements
        .iter()
        .map(|element| u32::from(element.weight) * u32::from(element.literal.is_held(by)))
        .sum()
}

// The sum of the constraint: counted where it has elements and they weigh the same.
pub(crate) fn sum(constraint: &Constraint, by: Interpretation) -> u32
    ensures { result ≡ weigh (held by) (constraint_of constraint.now).elements }
{
    match constraint.uniform() {
        Some(uniform) => uniform.sum(by),
        None => held_weight(&constraint.elements, by),
    }
}

// The sum is not above the high bound, if there is one.
pub(crate) fn is_at_most(total: u32, high: Option<u32>) -> bool
    ensures { result ≡ at_most total high }
{
    high.is_none_or(|most| total <= most)
}

// The constraint holds in the sheet.
pub(crate) fn is_satisfied(constraint: &Constraint, sheet: Sheet) -> bool
    ensures { result ≡ satisfied sheet (constraint_of constraint.now) }
{
    let total = sum(constraint, Interpretation::of_sheet(sheet));
    constraint.low <= total && is_at_most(total, constraint.high)
}
