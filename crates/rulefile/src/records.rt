// The records of a file.
ghost use Rattle.std.specs.Prelude.{◌≡◌, ◌≤◌, vec_len, vec_items};
ghost use Rattle.std.specs.List.{list_any};
ghost use Rattle.sheets.specs.Sheets.{width};
ghost use Rattle.sheets.specs.Literals.{held};
ghost use Rattle.sheets.specs.LiteralSets.{Stands};
ghost use Rattle.rulefile.specs.Ranges.{most_constraints, most_clause_literals};
ghost use Rattle.rulefile.specs.Numbers.{kind_number};

use crate::constraints::Constraint;
use crate::refusals::Refusal;
use sheets::{Interpretation, Literal, LiteralSet, Mark, Sheet};

// What a record is.
#[derive(Clone, Copy, Debug, PartialEq, Eq)]
pub enum Kind {
    // The count of marks and the house sheet.
    Head = 1,
    // A rule of the book.
    Rule = 2,
    // A clause of the printer's list.
    Clause = 3,
    // A wish of the shop.
    Wish = 4,
    // A call on the acts of an order.
    Act = 5,
    // A wish with a tag. There is no kind 6.
    TaggedWish = 7,
}

// The numbers of the kinds, to match.
const HEAD: u16 = Kind::Head as u16;

const RULE: u16 = Kind::Rule as u16;

const CLAUSE: u16 = Kind::Clause as u16;

const WISH: u16 = Kind::Wish as u16;

const ACT: u16 = Kind::Act as u16;

const TAGGED_WISH: u16 = Kind::TaggedWish as u16;

impl Kind {
    // The number by which a file knows the kind.
    pub fn number(self) -> u16
        ensures { result ≡ kind_number self }
    {
        self as u16
    }
}

impl TryFrom<u16> for Kind {
    type Error = Refusal;

    ghost use Rattle.std.specs.Prelude.{◌≡◌};
    ghost use Rattle.rulefile.specs.Format.{kind_of};

    ghost try_from_gives = { λ code r. r ≡ kind_of code };

    fn try_from(code: u16) -> Result<Kind, Refusal> {
        match code {
            HEAD => Ok(Kind::Head),
            RULE => Ok(Kind::Rule),
            CLAUSE => Ok(Kind::Clause),
            WISH => Ok(Kind::Wish),
            ACT => Ok(Kind::Act),
            TAGGED_WISH => Ok(Kind::TaggedWish),
            _ => Err(Refusal::UnknownKind),
        }
    }
}

// The count of marks, and the house sheet.
#[derive(Clone, Copy, Debug, PartialEq, Eq)]
pub struct Head {
    // From 1 to `MOST_MARKS`.
    pub count: u8,
    // Of marks below the count.
    pub house: Sheet,
    // The count is at most the number of marks.
    ghost few: { count ≤ width },
}

// The head holds, or a constraint of the body does not.
#[derive(Drop)]
pub struct Rule {
    pub head: Constraint,
    pub body: Vec<Constraint>,
    // A rule has at most `MOST_CONSTRAINTS` body constraints.
    ghost few: { vec_len body ≤ most_constraints },
}

// At least one of the literals holds.
#[derive(Drop)]
pub struct Clause {
    pub literals: Vec<Literal>,
    // The literals again.
    pub(crate) set: LiteralSet,
    // A clause has at most `MOST_CLAUSE_LITERALS` literals.
    ghost few: { vec_len literals ≤ most_clause_literals },
    // The set stands for the literals.
    ghost same: { Stands set.plain set.nots (vec_items literals) },
}

impl Clause {
    // At least one of the literals is held.
    pub fn is_one_held(&self, by: Interpretation) -> bool
        ensures { result ≡ list_any (held by) (vec_items self.now.literals) }
    {
        self.set.is_one_held(by)
    }
}

// A call on a marking order. Its marks are tested when it is called, not when it is read.
#[derive(Clone, Copy, Debug, PartialEq, Eq)]
pub enum Act {
    // The sheet shall have the mark.
    Pin(Mark),
    // It shall lack the mark.
    Bar(Mark),
    // It shall not be this sheet.
    Strike(Sheet),
    // The last act shall be taken off.
    Undo,
}
