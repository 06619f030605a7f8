// Files that are not yet read to their end.
ghost use Rattle.std.specs.Prelude.{◌≤◌};
ghost use Rattle.sheets.specs.Sheets.{width};

use crate::records::{Act, Clause, Kind, Rule};
use crate::wishes::Wish;
use sheets::Sheet;
use std::alloc::Global;

// A file that is not yet read to its end. No `RuleFile`, whose limits each `?` on the way would have to prove.
#[derive(Drop)]
pub struct Draft {
    // The memory for what is read.
    pub(crate) heap: Global,
    // From the head.
    pub(crate) count: u8,
    pub(crate) house: Sheet,
    // What the records say that were read after it, and the kinds of them all, in file order.
    pub(crate) rules: Vec<Rule>,
    pub(crate) clauses: Vec<Clause>,
    pub(crate) wishes: Vec<Wish>,
    pub(crate) acts: Vec<Act>,
    pub(crate) kinds: Vec<Kind>,
    // The count is at most the number of marks.
    ghost few: { count ≤ width },
}
