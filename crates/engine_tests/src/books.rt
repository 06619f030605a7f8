// Every sheet of a small book, by the engine and by the second solver.
use crate::solver::solve;
use judges::{Verdict, sheet_verdict};
use rulefile::RuleFile;
use sheets::first_marks;
use std::fmt;
use std::fmt::Formatter;

// The most marks of a book that is tried.
pub const MOST_MARKS: u8 = 10;

// How many sheets of a book got each verdict, and on how many the two solvers differ.
#[derive(Clone, Copy, Default)]
pub struct Tally {
    lawful: u64,
    broken: u64,
    ungrounded: u64,
    differ: u64,
}

impl Tally {
    // Adds one to the number of sheets of the verdict, or, with none, of those on which the solvers differ.
    fn count(&mut self, verdict: Option<Verdict>) {
        let number = match verdict {
            Some(Verdict::Lawful) => &mut self.lawful,
            Some(Verdict::Broken(_)) => &mut self.broken,
            Some(Verdict::Ungrounded(_)) => &mut self.ungrounded,
            None => &mut self.differ,
        };
        *number = number.wrapping_add(1);
    }

    // The sheets of both.
    pub fn plus(self, other: Tally) -> Tally {
        Tally {
            lawful: self.lawful.wrapping_add(other.lawful),
            broken: self.broken.wrapping_add(other.broken),
            ungrounded: self.ungrounded.wrapping_add(other.ungrounded),
            differ: self.differ.wrapping_add(other.differ),
        }
    }
}

impl fmt::Display for Tally {
    fn fmt<W: fmt::Write>(&self, f: &mut Formatter<W>) -> fmt::Result {
        let Tally {
            lawful,
            broken,
            ungrounded,
            differ,
        } = *self;
        write!(
            f,
            "{lawful} lawful, {broken} broken, {ungrounded} ungrounded, {differ} differ"
        )
    }
}

// A `for`: a `fold` would only hand the tally through.
pub fn try_book(file: &RuleFile) -> Tally {
    let mut tally = Tally::default();
    for sheet in 0..=first_marks(file.count) {
        let other = solve(file, sheet);
        let verdict = sheet_verdict(file, sheet).ok();
        tally.count(verdict.filter(|verdict| *verdict == other));
    }
    tally
}
