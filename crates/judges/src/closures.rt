// The closure of the reduct of the rules for a sheet.
ghost use Rattle.std.specs.Prelude.{◌≡◌, ◌<◌, true, ◌&&◌, map};
ghost use Rattle.sheets.specs.Sheets.{Subset};
ghost use Rattle.rulefile.specs.Model.{constraint_of, rule_of};
ghost use Rattle.std.specs.List.{list_all};
ghost use Rattle.sheets.specs.Literals.{holds};
ghost use Rattle.judges.specs.Programs.{plain, reduct, Closure};
ghost use Rattle.judges.specs.Rounds.{supported, added, fired, round};

use crate::sums::{is_at_most, sum};
use rulefile::{Constraint, Element, Rule};
use sheets::{Interpretation, Literal, Sheet, has_mark, with_mark};

// A plain element that holds in the sheet.
fn is_picked(literal: Literal, sheet: Sheet) -> bool
    ensures { result ≡ (plain literal && holds sheet literal) }
{
    !literal.negated && has_mark(sheet, literal.mark)
}

// The reduct of rules for a sheet.
#[derive(Clone, Copy)]
pub(crate) struct Reduct<'a> {
    pub(crate) rules: &'a [Rule],
    pub(crate) sheet: Sheet,
}

impl Reduct<'_> {
    // The sum in the sheet is not above the high bound, and the plain elements reached with the "not" elements that hold
    // in the sheet weigh the low bound or more.
    fn is_supported(&self, constraint: &Constraint, reached: Sheet) -> bool
        ensures { result ≡ supported self.now.sheet reached (constraint_of constraint.now) }
    {
        let in_sheet = Interpretation::of_sheet(self.sheet);
        let by_reached = Interpretation {
            plain: reached,
            negated: self.sheet,
        };
        is_at_most(sum(constraint, in_sheet), constraint.high)
            && constraint.low <= sum(constraint, by_reached)
    }

    // A rule with the body is not skipped, and the body is reached.
    fn has_support(&self, body: &[Constraint], reached: Sheet) -> bool
        ensures { result ≡ list_all (supported self.now.sheet reached) (map constraint_of body.now) }
    {
        body.iter()
            .all(|constraint| self.is_supported(constraint, reached))
    }

    // The marks reached, with the mark of the head element if it is plain and holds in the sheet.
    fn with_head(&self, element: &Element, reached: Sheet) -> Sheet
        ensures { result ≡ added self.now.sheet element.now reached }
    {
        let literal = element.literal;
        if is_picked(literal, self.sheet) {
            with_mark(reached, literal.mark)
        } else {
            reached
        }
    }

    // The marks reached, with each plain head mark that the sheet has, if the body is reached.
    fn fire(&self, rule: &Rule, reached: Sheet) -> Sheet
        ensures { result ≡ fired self.now.sheet (rule_of rule.now) reached }
    {
        if self.has_support(&rule.body, reached) {
            rule.head
                .elements
                .iter()
                .fold(reached, |marks, element| self.with_head(element, marks))
        } else {
            reached
        }
    }

    // Once through the rules.
    fn next_round(&self, reached: Sheet) -> Sheet
        ensures { result ≡ round self.now.sheet (map rule_of self.now.rules.now) reached }
    {
        self.rules
            .iter()
            .fold(reached, |marks, rule| self.fire(rule, marks))
    }

    // The closure of the reduct. A `loop`, as no method of the library repeats up to a fixed point.
    pub(crate) fn closure(&self) -> Sheet
        ensures closes { Closure (reduct self.now.sheet (map rule_of self.now.rules.now)) result }
        ensures within { Subset result self.now.sheet }
    {
        let mut reached = 0;
        loop {
            let next = self.next_round(reached);
            if next == reached {
                break reached;
            }
            reached = next;
        }
    }
}
