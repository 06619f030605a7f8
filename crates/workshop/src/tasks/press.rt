// The task `press`: the report of a press that takes no sheet which the wishes make dearer than its sample, the house sheet.
ghost use Rattle.std.specs.Prelude.{IfOk};
ghost use Rattle.std.specs.Rc.{rc_value};
ghost use Rattle.rulefile.specs.Answers.{file_of};
ghost use Rattle.report.specs.Presses.{PressReport};

use crate::input::read_file;
use crate::words::path_alone;
use report::{LEAST_BUFFER, press};
use rulefile::RuleFile;
use std::alloc::Global;
use std::io::Write;
use std::rc::Rc;

pub const HELP: &str =
    "press            the report, but with no sheet that the wishes make dearer than the house sheet";

// What the task is given.
#[derive(Drop)]
pub struct Press {
    // The path of the rule file, if it has one.
    path: Option<String>,
}

impl Press {
    pub fn of(heap: Global, words: &[String]) -> anyhow::Result<Press> {
        let path = path_alone(heap, "press", words)?;
        Ok(Press { path })
    }

    pub fn run(&self, rt: &HostRuntime) -> anyhow::Result<()> {
        if let Some(file) = read_file(rt, &self.path)? {
            let lines = lines_of(rt.alloc(), &file)?;
            rt.stdout().write_all(lines.as_slice())?;
        }
        Ok(())
    }
}

// A line for each act, and that of the sheet, or of no sheet.
fn lines_of(heap: Global, file: &Rc<RuleFile>) -> anyhow::Result<Vec<u8>>
    ensures { IfOk result (λ lines. PressReport (file_of (rc_value file.now)) lines.items) }
{
    let mut lines = vec![in heap; 0; LEAST_BUFFER]?;
    let length = press(heap, file, &mut lines)?;
    lines.truncate(length);
    Ok(lines)
}
