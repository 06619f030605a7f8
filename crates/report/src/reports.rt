// The report on a file.
ghost use Rattle.report.specs.Reports.{Reported};

use crate::refusals::{Refusal, ReportError};
use crate::settling::settled_log;
use crate::writing::Writer;
use rulefile::{ReadError, read};
use std::alloc::Global;

// Every report fits into so many bytes.
pub const LEAST_BUFFER: usize = 4096;

// Writes the lines of the report on the file to the front of the buffer, and returns their length; the bytes after them
// stay. Where it does not write a report, the whole buffer stays.
pub fn report(heap: Global, file: &[u8], out: &mut [u8]) -> Result<usize, ReportError>
    ensures { Reported file.now out.old result out.new }
{
    if out.len() < LEAST_BUFFER {
        return Err(Refusal::BufferSmall.into());
    }
    let mut lines = Writer::new(out);
    match read(heap, file) {
        Ok(rules) => {
            let log = settled_log(heap, rules)?;
            lines.log(log.as_slice());
        }
        Err(ReadError::Refused(bad)) => lines.bad_file(bad),
        // A bad file is reported, so the reader's error is no error here, and `?` doesn't convert it.
        Err(ReadError::Memory(error)) => return Err(error.into()),
    }
    Ok(lines.len())
}
