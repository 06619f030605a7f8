// A plain mark, or "not" a mark, and what it is judged by.
ghost use Rattle.std.specs.Prelude.{◌≡◌};
ghost use Rattle.std.specs.List.{list_any, list_all};
ghost use Rattle.sheets.specs.Literals.{by_words, held};

use crate::marks::{Mark, Sheet, has_mark};

// Holds in a sheet that has the mark; where it is negated, in a sheet that lacks it. A flag, so that the mark is read
// without asking.
#[derive(Clone, Copy, Debug, PartialEq, Eq)]
pub struct Literal {
    pub mark: Mark,
    pub negated: bool,
}

// What literals are judged by. A plain mark is held if it is in `plain`, and "not" a mark if the mark is missing from
// `negated`.
#[derive(Clone, Copy, Debug, PartialEq, Eq)]
pub struct Interpretation {
    pub plain: Sheet,
    pub negated: Sheet,
}

impl Interpretation {
    // What is held by it holds in the sheet.
    pub fn of_sheet(sheet: Sheet) -> Interpretation
        ensures { result ≡ by_words sheet sheet }
    {
        Interpretation {
            plain: sheet,
            negated: sheet,
        }
    }
}

impl Literal {
    // The literal is held by the interpretation.
    pub fn is_held(self, by: Interpretation) -> bool
        ensures { result ≡ held by self }
    {
        // One mark is looked up in either case, so that no branch is to be guessed.
        let sheet = if self.negated { by.negated } else { by.plain };
        has_mark(sheet, self.mark) != self.negated
    }
}

// At least one of the literals is held.
pub fn is_one_held(literals: &[Literal], by: Interpretation) -> bool
    ensures { result ≡ list_any (held by) literals.now }
{
    literals.iter().any(|literal| literal.is_held(by))
}

// Each of the literals is held.
pub fn are_all_held(literals: &[Literal], by: Interpretation) -> bool
    ensures { result ≡ list_all (held by) literals.now }
{
    literals.iter().all(|literal| literal.is_held(by))
}
