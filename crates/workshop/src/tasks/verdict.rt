// The task `verdict`: what is said of the sheet of given marks. The acts of the file play no part.
use crate::facts::{FactsText, SheetFacts};
use crate::input::read_file;
use crate::marks::{mark_of, sheet_of};
use crate::words::Words;
use rulefile::RuleFile;
use sheets::Mark;
use std::alloc::{AllocError, Global};
use std::rc::Rc;

pub const HELP: &str =
    "verdict MARK..   what is said of the sheet of these marks, each from 0 to 255";

// What the task is given.
#[derive(Drop)]
pub struct Verdict {
    // The path of the rule file, if it has one.
    path: Option<String>,
    // In the order of the words.
    marks: Vec<Mark>,
}

impl Verdict {
    pub fn of(heap: Global, words: &[String]) -> anyhow::Result<Verdict> {
        let Words { path, others } = Words::of(heap, words)?;
        let mut marks = Vec::new(heap);
        for word in others.as_slice() {
            marks.push(mark_of(word)?)?;
        }
        Ok(Verdict { path, marks })
    }

    pub fn run(&self, rt: &HostRuntime) -> anyhow::Result<()> {
        if let Some(file) = read_file(rt, &self.path)? {
            let lines = lines_of(rt.alloc(), &file, self.marks.as_slice())?;
            print!(rt; "{lines}")?;
        }
        Ok(())
    }
}

// What is said of the sheet of these marks, or that it is refused.
fn lines_of(heap: Global, file: &Rc<RuleFile>, marks: &[Mark]) -> Result<String, AllocError> {
    match sheet_of(marks, file.count) {
        Ok(sheet) => {
            let text = FactsText {
                file,
                facts: SheetFacts::new(file, sheet)?,
                name: "",
            };
            format!(in heap; "{text}")
        }
        Err(why) => {
            let number = why.number();
            format!(in heap; "refused {number}\n")
        }
    }
}
