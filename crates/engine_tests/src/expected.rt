// The report that a file must have, by going through all its sheets.
use crate::costs::{marks_apart, sum_at};
use crate::docket::Docket;
use crate::solver::{holds, is_in, solve};
use judges::Verdict;
use rulefile::{Act, RuleFile};
use sheets::{Sheet, WIDTH, first_marks};
use std::alloc::{AllocError, Global};
use std::fmt;
use std::fmt::Formatter;

// What a sheet costs: the sums of the levels from 8 down, and then the distance. Of two the first that differs decides.
#[derive(Clone, Copy, PartialEq, Eq, PartialOrd, Ord)]
struct Cost {
    sums: [i64; 8],
    distance: usize,
}

fn cost_of(file: &RuleFile, sheet: Sheet) -> Cost {
    Cost {
        sums: [8, 7, 6, 5, 4, 3, 2, 1].map(|level| sum_at(file, level, sheet)),
        distance: marks_apart(sheet, file.house),
    }
}

fn keeps(act: Act, sheet: Sheet) -> bool {
    match act {
        Act::Pin(mark) => is_in(sheet, mark),
        Act::Bar(mark) => !is_in(sheet, mark),
        Act::Strike(struck) => sheet != struck,
        Act::Undo => true,
    }
}

// The sheet is lawful, keeps every clause, and keeps the acts.
fn is_open(file: &RuleFile, acts: &[Act], sheet: Sheet) -> bool {
    let keeps_clauses = file.clauses.iter().all(|clause| clause
        .literals
        .iter()
        .any(|literal| holds(*literal, sheet, sheet)));
    keeps_clauses
        && acts.iter().all(|act| keeps(*act, sheet))
        && solve(file, sheet) == Verdict::Lawful
}

// The wishes make the sheet dearer than the house sheet.
fn is_dearer(file: &RuleFile, sheet: Sheet) -> bool {
    cost_of(file, sheet).sums > cost_of(file, file.house).sums
}

// The cheapest sheet that is open, of those that are not dearer than the house sheet if that is asked; and of equals the
// earliest: the one that lacks the lowest mark on which two differ.
fn best(file: &RuleFile, acts: &[Act], is_press: bool) -> Option<(Sheet, Cost)> {
    (0..=first_marks(file.count))
        .filter(|sheet| is_open(file, acts, *sheet) && !(is_press && is_dearer(file, *sheet)))
        .map(|sheet| (sheet, cost_of(file, sheet)))
        .min_by_key(|best| (best.1, best.0.reverse_bits()))
}

// Displays the line of an act: that it stands, or the number by which it is refused.
#[derive(Clone, Copy)]
struct ActLine(Option<u8>);

impl fmt::Display for ActLine {
    fn fmt<W: fmt::Write>(&self, f: &mut Formatter<W>) -> fmt::Result {
        match self.0 {
            Some(number) => writeln!(f, "refused {number}"),
            None => f.write_str("ok\n"),
        }
    }
}

// Displays the marks of a sheet upward, each after a space.
#[derive(Clone, Copy)]
struct Marks(Sheet);

impl fmt::Display for Marks {
    fn fmt<W: fmt::Write>(&self, f: &mut Formatter<W>) -> fmt::Result {
        for mark in (0..WIDTH).filter(|mark| is_in(self.0, *mark)) {
            write!(f, " {mark}")?;
        }
        Ok(())
    }
}

impl fmt::Display for Cost {
    fn fmt<W: fmt::Write>(&self, f: &mut Formatter<W>) -> fmt::Result {
        f.write_str("cost")?;
        for sum in &self.sums {
            write!(f, " {sum}")?;
        }
        let distance = self.distance;
        write!(f, " off {distance}")
    }
}

// Displays the line of the sheet with its cost, or that there is none.
#[derive(Clone, Copy)]
struct SheetLine(Option<(Sheet, Cost)>);

impl fmt::Display for SheetLine {
    fn fmt<W: fmt::Write>(&self, f: &mut Formatter<W>) -> fmt::Result {
        let Some((sheet, cost)) = self.0 else {
            return f.write_str("no sheet\n");
        };
        let marks = Marks(sheet);
        writeln!(f, "sheet{marks} {cost}")
    }
}

// The report that a file must have, and what a press must print of it; and what they show.
#[derive(Drop)]
pub struct Expected {
    pub lines: String,
    pub pressed: String,
    pub refused: usize,
    pub has_sheet: bool,
    pub has_pressed: bool,
    // Several open sheets cost the least.
    pub is_shared: bool,
}

// Calls the acts, and gives their lines and how many are refused.
fn call_acts(
    heap: Global,
    acts: &[Act],
    docket: &mut Docket,
) -> Result<(String, usize), AllocError> {
    let mut lines = String::new(heap);
    let mut refused = 0usize;
    for act in acts {
        let refusal = docket.call(*act)?;
        let line = ActLine(refusal);
        lines.push_str(format!(in heap; "{line}")?.as_str())?;
        refused = refused.wrapping_add(usize::from(refusal.is_some()));
    }
    Ok((lines, refused))
}

pub fn expected_of(heap: Global, file: &RuleFile) -> Result<Expected, AllocError> {
    let mut docket = Docket::new(heap, file.count);
    let (acts, refused) = call_acts(heap, file.acts.as_slice(), &mut docket)?;
    let settled = best(file, docket.acts(), false);
    let line = SheetLine(settled);
    let lines = format!(in heap; "{acts}{line}")?;
    let settled_below = best(file, docket.acts(), true);
    let line = SheetLine(settled_below);
    let pressed = format!(in heap; "{acts}{line}")?;
    let is_shared = settled.is_some_and(|(first, cost)| {
        (0..=first_marks(file.count)).any(|sheet| {
            sheet != first && cost_of(file, sheet) == cost && is_open(file, docket.acts(), sheet)
        })
    });
    Ok(Expected {
        lines,
        pressed,
        refused,
        has_sheet: settled.is_some(),
        has_pressed: settled_below.is_some(),
        is_shared,
    })
}
