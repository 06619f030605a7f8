// Literals as two words, so that all of them are tested at once.
ghost use Rattle.std.specs.Prelude.{◌≡◌, ◌*◌, ◌≤◌, List, [], true};
ghost use Rattle.std.specs.List.{list_any, list_all, count_by};
ghost use Rattle.sheets.specs.Sheets.{width};
ghost use Rattle.sheets.specs.declared.literals.Literal.{Literal};
ghost use Rattle.sheets.specs.Literals.{held};
ghost use Rattle.sheets.specs.LiteralSets.{Stands, in_width, has_literal, with_literal, distinct};

use crate::literals::{Interpretation, Literal};
use crate::marks::{Sheet, has_mark, with_mark};

// Some literals, by their marks.
#[derive(Clone, Copy, Debug, PartialEq, Eq)]
pub struct LiteralSet {
    // The marks that stand plain.
    plain: Sheet,
    // The marks that stand under "not".
    nots: Sheet,
}

impl LiteralSet {
    // No literal.
    pub fn empty() -> LiteralSet
        ensures { Stands result.plain result.nots [] }
    {
        LiteralSet { plain: 0, nots: 0 }
    }

    // The literals of a list that name marks there are; those of a mark from `WIDTH` upward change nothing.
    pub fn of(literals: &[Literal]) -> LiteralSet
        ensures { Stands result.plain result.nots (in_width literals.now) }
    {
        literals
            .iter()
            .fold(LiteralSet::empty(), |set, literal| set.with(*literal))
    }

    // One literal more; one of a mark from `WIDTH` upward changes nothing.
    #[tactic(auto, unfolding(crate::specs::LiteralSets::with_literal))]
    pub fn with(self, literal: Literal) -> LiteralSet
        ensures { result ≡ with_literal self literal }
    {
        if literal.negated {
            LiteralSet {
                plain: self.plain,
                nots: with_mark(self.nots, literal.mark),
            }
        } else {
            LiteralSet {
                plain: with_mark(self.plain, literal.mark),
                nots: self.nots,
            }
        }
    }

    // The literal is one of them.
    pub fn has(self, literal: Literal) -> bool
        ensures { result ≡ has_literal self.plain self.nots literal }
    {
        if literal.negated {
            has_mark(self.nots, literal.mark)
        } else {
            has_mark(self.plain, literal.mark)
        }
    }

    // At least one of the literals is held.
    pub fn is_one_held(self, by: Interpretation) -> bool
        ensures { (ls : List Literal) → Stands self.plain self.nots ls → result ≡ list_any (held by) ls }
    {
        (self.plain & by.plain) | (self.nots & !by.negated) != 0
    }

    // Each of the literals is held.
    pub fn are_all_held(self, by: Interpretation) -> bool
        ensures { (ls : List Literal) → Stands self.plain self.nots ls → result ≡ list_all (held by) ls }
    {
        (self.plain & !by.plain) | (self.nots & by.negated) == 0
    }

    // How many of the literals are held.
    pub fn count_held(self, by: Interpretation) -> u32
        ensures value { (ls : List Literal) → Stands self.plain self.nots ls → distinct ls ≡ true → result ≡ count_by (held by) ls }
        ensures most { result ≤ 2 * width }
    {
        (self.plain & by.plain).count_ones() + (self.nots & !by.negated).count_ones()
    }
}
