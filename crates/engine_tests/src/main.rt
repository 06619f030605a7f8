// Makes the report on every file of data/ and prints, in a line for each, what was read or why it was refused; and then, in
// a line for each small book, the verdicts on all its sheets and whether their costs are right.
//
// data/names.txt has the names. NAME.bin is a rule file, and NAME.out has the lines that its report must have. A line ends
// in ` DIFFERS` where the report has other bytes.
#![tactic(auto)]

mod books;
mod chance;
mod costs;
mod docket;
mod draws;
mod expected;
mod extremes;
mod groups;
mod outcomes;
mod reports;
mod solver;

use books::{MOST_MARKS, try_book};
use chance::run_chance;
use costs::try_costs;
use extremes::run_extremes;
use outcomes::{Sizes, line_of, outcome_of};
use reports::report_of;
use rulefile::{BadFile, read};
use std::fmt::Formatter;
use std::rc::Rc;
use std::{fmt, fs, io};

// What came of a file: what the reader made of it, in a line too, and whether its report differs from what it must be.
#[derive(Drop)]
struct Trial {
    outcome: Result<Sizes, BadFile>,
    line: String,
    is_different: bool,
}

impl fmt::Display for Trial {
    fn fmt<W: fmt::Write>(&self, f: &mut Formatter<W>) -> fmt::Result {
        let line = self.line.as_str();
        let mark = if self.is_different { " DIFFERS" } else { "" };
        write!(f, "{line}{mark}")
    }
}

// How many files there are, how many of them are refused, and how many have another report than they must have.
#[derive(Clone, Copy, Default)]
struct Files {
    files: u32,
    refused: u32,
    differ: u32,
}

impl Files {
    fn add(&mut self, trial: &Trial) {
        self.files = self.files.saturating_add(1);
        if trial.outcome.is_err() {
            self.refused = self.refused.saturating_add(1);
        }
        if trial.is_different {
            self.differ = self.differ.saturating_add(1);
        }
    }
}

impl fmt::Display for Files {
    fn fmt<W: fmt::Write>(&self, f: &mut Formatter<W>) -> fmt::Result {
        let Files {
            files,
            refused,
            differ,
        } = *self;
        write!(
            f,
            "{files} files, {refused} refused, {files} reports compared, {differ} differ"
        )
    }
}

// The bytes of the rule file of the name. Handle and name stay two parameters: the handle is the program's, not the file's.
fn read_bytes(rt: &HostRuntime, name: &str) -> io::Result<Vec<u8>> {
    fs::read(rt, format!(in rt.alloc(); "{name}.bin")?)
}

fn run_trial(rt: &HostRuntime, name: &str) -> anyhow::Result<Trial> {
    let heap = rt.alloc();
    let bytes = read_bytes(rt, name)?;
    let expected = fs::read(rt, format!(in heap; "{name}.out")?)?;
    let outcome = outcome_of(heap, bytes.as_slice())?;
    let line = line_of(heap, outcome)?;
    let is_different = report_of(heap, bytes.as_slice())? != expected;
    Ok(Trial {
        outcome,
        line,
        is_different,
    })
}

// Every sheet of the book, by the engine and by the second solver; files that are refused or have many marks are passed
// over.
fn run_book(rt: &HostRuntime, name: &str) -> anyhow::Result<()> {
    let heap = rt.alloc();
    let bytes = read_bytes(rt, name)?;
    if let Ok(file) = read(heap, bytes.as_slice())
        && file.count <= MOST_MARKS
    {
        let file = Rc::new(heap, file)?;
        let tally = try_book(&file);
        let differ = try_costs(&file)?;
        println!(rt; "{name} sheets: {tally}; costs: {differ} differ")?;
    }
    Ok(())
}

fn run_files(rt: &HostRuntime, names: &str) -> anyhow::Result<()> {
    let mut files = Files::default();
    for name in names.lines() {
        let trial = run_trial(rt, name)?;
        println!(rt; "{name} {trial}")?;
        files.add(&trial);
    }
    println!(rt; "{files}")?;
    Ok(())
}

fn run(rt: &HostRuntime) -> anyhow::Result<()> {
    let names = fs::read_to_string(rt, "names.txt")?;
    run_files(rt, names.as_str())?;
    for name in names.lines() {
        run_book(rt, name)?;
    }
    run_extremes(rt)?;
    run_chance(rt)
}

fn main(rt: HostRuntime) -> anyhow::Result<()> {
    run(&rt)
}
