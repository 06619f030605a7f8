// The task `list`: a rule file in words, and what is said of its house sheet.
use crate::facts::{FactsText, SheetFacts};
use crate::input::read_file;
use crate::text::FileText;
use crate::words::path_alone;
use rulefile::RuleFile;
use std::alloc::Global;
use std::rc::Rc;

pub const HELP: &str =
    "list             the rule file in words, and what is said of its house sheet";

// What the task is given.
#[derive(Drop)]
pub struct List {
    // The path of the rule file, if it has one.
    path: Option<String>,
}

impl List {
    pub fn of(heap: Global, words: &[String]) -> anyhow::Result<List> {
        let path = path_alone(heap, "list", words)?;
        Ok(List { path })
    }

    pub fn run(&self, rt: &HostRuntime) -> anyhow::Result<()> {
        match read_file(rt, &self.path)? {
            Some(file) => print_file(rt, &file),
            None => Ok(()),
        }
    }
}

// Prints the records of the file, and what is said of its house sheet, piece by piece: the whole text in memory would be
// larger than the file.
fn print_file(rt: &HostRuntime, file: &Rc<RuleFile>) -> anyhow::Result<()> {
    let text = FileText { file };
    let house = FactsText {
        file,
        facts: SheetFacts::new(file, file.house)?,
        name: "house sheet: ",
    };
    print!(rt; "{text}{house}")?;
    Ok(())
}
