// What a press prints that takes no sheet which the wishes make dearer than its sample, the house sheet of the file.
ghost use Rattle.std.specs.Prelude.{◌≡◌, IfOk};
ghost use Rattle.std.specs.Rc.{rc_value};
ghost use Rattle.rulefile.specs.Answers.{file_of};
ghost use Rattle.report.specs.Logs.{log_text};
ghost use Rattle.report.specs.Presses.{PressReport, Pressed};

use crate::refusals::{Refusal, ReportError};
use crate::reports::LEAST_BUFFER;
use crate::settling::{Cost, calls_after, judge_of_file, scale_of_file};
use crate::writing::Writer;
use ceilings::conduct_below;
use orders::Event;
use rulefile::RuleFile;
use sheets::WIDTH;
use std::alloc::{AllocError, Global};
use std::rc::Rc;

// The log of the report's order, below a ceiling: what the house sheet costs by levels, with the greatest distance, so that
// exactly the sheets are out that the wishes make dearer. Its text is what the press prints.
fn press_log(heap: Global, file: &Rc<RuleFile>) -> Result<Vec<Event<Cost>>, AllocError>
    ensures { IfOk result (λ log. PressReport (file_of (rc_value file.now)) (log_text log.items)) }
{
    let judge = judge_of_file(file)?;
    let scale = scale_of_file(file)?;
    let ceiling = (scale.first.cost(file.house), u32::from(WIDTH));
    let calls = calls_after(heap, file.acts.as_slice())?;
    let mut log = Vec::with_capacity(heap, calls.len())?;
    conduct_below(judge, &scale, ceiling, calls.as_slice(), &mut log);
    Ok(log)
}

// Writes the lines of a press on the file to the front of the buffer, and returns their length; the bytes after them stay.
// They are those of the report, but with `no sheet` where the wishes make its sheet dearer than the house sheet. Where it does
// not write them, the whole buffer stays.
pub fn press(heap: Global, file: &Rc<RuleFile>, out: &mut [u8]) -> Result<usize, ReportError>
    ensures { Pressed (file_of (rc_value file.now)) out.old result out.new }
{
    if out.len() < LEAST_BUFFER {
        return Err(Refusal::BufferSmall.into());
    }
    let log = press_log(heap, file)?;
    let mut lines = Writer::new(out);
    lines.log(log.as_slice());
    Ok(lines.len())
}
