// The report on a file, and what a press prints.
use report::{LEAST_BUFFER, press, report};
use rulefile::RuleFile;
use std::alloc::Global;
use std::rc::Rc;

// The lines of the report.
pub fn report_of(heap: Global, file: &[u8]) -> anyhow::Result<Vec<u8>> {
    let mut lines = vec![in heap; 0; LEAST_BUFFER]?;
    let length = report(heap, file, &mut lines)?;
    lines.truncate(length);
    Ok(lines)
}

// The lines of the press.
pub fn press_of(heap: Global, file: &Rc<RuleFile>) -> anyhow::Result<Vec<u8>> {
    let mut lines = vec![in heap; 0; LEAST_BUFFER]?;
    let length = press(heap, file, &mut lines)?;
    lines.truncate(length);
    Ok(lines)
}
