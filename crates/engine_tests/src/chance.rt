// Random books: their reports, verdicts and costs by the engine and by going through all sheets.
use crate::books::{Tally, try_book};
use crate::costs::try_costs;
use crate::draws::Draw;
use crate::expected::expected_of;
use crate::groups::Groups;
use crate::reports::{press_of, report_of};
use rulefile::read;
use std::fmt;
use std::fmt::Formatter;
use std::ops::Range;
use std::rc::Rc;

// How many books without tags are drawn, and how many with tags. Each begins the generator with its own number; those with
// tags go on behind the others.
const BOOKS: u64 = 300;

const TAGGED_BOOKS: u64 = 200;

// What was found of the books.
#[derive(Clone, Copy, Default)]
struct Found {
    sheets: Tally,
    costs_differ: u64,
    with_sheet: u64,
    shared: u64,
    acts: u64,
    refused: u64,
    reports_differ: u64,
    pressed: u64,
    presses_differ: u64,
    groups: Groups,
}

impl fmt::Display for Found {
    fn fmt<W: fmt::Write>(&self, f: &mut Formatter<W>) -> fmt::Result {
        let Found {
            sheets,
            costs_differ,
            with_sheet,
            shared,
            acts,
            refused,
            reports_differ,
            pressed,
            presses_differ,
            groups,
        } = *self;
        writeln!(f, "{groups}")?;
        writeln!(f, "sheets: {sheets}; costs: {costs_differ} differ")?;
        writeln!(
            f,
            "reports: {with_sheet} with a sheet, {shared} of them with others of its cost, {acts} acts, {refused} refused, {reports_differ} differ"
        )?;
        write!(
            f,
            "presses: {pressed} with a sheet, {presses_differ} differ"
        )
    }
}

// Draws the book of the number, and adds what is found of it.
fn run_book(
    rt: &HostRuntime,
    number: u64,
    has_tags: bool,
    found: &mut Found,
) -> anyhow::Result<()> {
    let heap = rt.alloc();
    let bytes = Draw::new(heap, number, has_tags).file()?;
    let file = Rc::new(heap, read(heap, bytes.as_slice())?)?;
    let expected = expected_of(heap, &file)?;
    let is_different = report_of(heap, bytes.as_slice())?.as_slice() != expected.lines.as_bytes();
    let is_pressed_otherwise = press_of(heap, &file)?.as_slice() != expected.pressed.as_bytes();
    if is_different || is_pressed_otherwise {
        println!(rt; "random book {number} DIFFERS")?;
    }
    let costs_differ = try_costs(&file)?;
    found.sheets = found.sheets.plus(try_book(&file));
    found.costs_differ = found.costs_differ.wrapping_add(costs_differ);
    found.with_sheet = found.with_sheet.wrapping_add(u64::from(expected.has_sheet));
    found.shared = found.shared.wrapping_add(u64::from(expected.is_shared));
    found.acts = found.acts.wrapping_add(file.acts.len() as u64);
    found.refused = found.refused.wrapping_add(expected.refused as u64);
    found.reports_differ = found.reports_differ.wrapping_add(u64::from(is_different));
    found.groups = found.groups.plus(Groups::of(&file));
    found.pressed = found.pressed.wrapping_add(u64::from(expected.has_pressed));
    found.presses_differ = found
        .presses_differ
        .wrapping_add(u64::from(is_pressed_otherwise));
    Ok(())
}

// The random books of the numbers.
fn run_books(rt: &HostRuntime, numbers: Range<u64>, has_tags: bool) -> anyhow::Result<Found> {
    let mut found = Found::default();
    for number in numbers {
        run_book(rt, number, has_tags, &mut found)?;
    }
    Ok(found)
}

pub fn run_chance(rt: &HostRuntime) -> anyhow::Result<()> {
    let found = run_books(rt, 0..BOOKS, false)?;
    println!(rt; "{BOOKS} random books without tags: {found}")?;
    let found = run_books(rt, BOOKS..BOOKS + TAGGED_BOOKS, true)?;
    println!(rt; "{TAGGED_BOOKS} random books with tags: {found}")?;
    Ok(())
}
