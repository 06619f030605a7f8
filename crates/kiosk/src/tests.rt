// A long input, readers and writers that fail, and what a failure prints.
use crate::failures::Failure;
use crate::write_report;
use report::ReportError;
use std::alloc::AllocError;
use std::io::{ErrorKind, Read, Write};
use std::process::Abort;
use std::test::Fail;
use std::{fmt, io};

// Three million bytes are refused by 10 at 0, and those stay with the reader that come after the first 32,769.
#[test]
fn input_of_megabytes(rt: HostRuntime) -> Result<(), Fail> {
    let bytes = vec![in rt.alloc(); 0; 3_000_000]?;
    let mut input = bytes.as_slice();
    let mut output = Vec::new(rt.alloc());
    write_report(rt.alloc(), &mut input, &mut output)?;
    assert_eq!(rt; output.as_slice(), b"refused 10 at 0\n".as_slice());
    assert_eq!(rt; input.len(), 2_967_231);
    Ok(())
}

// Cannot be read.
#[derive(Drop)]
struct Broken;

impl Read for Broken {
    fn read(&mut self, _buffer: &mut [u8]) -> io::Result<usize> {
        Err(ErrorKind::BrokenPipe.into())
    }
}

#[test]
fn failed_input(rt: HostRuntime) -> Result<(), Fail> {
    let mut output = Vec::new(rt.alloc());
    let failed = write_report(rt.alloc(), &mut Broken, &mut output);
    assert!(rt; matches!(&failed, Err(Failure::NoReport(_))));
    assert!(rt; output.is_empty());
    Ok(())
}

// Takes so many bytes, one in a call, and then none.
#[derive(Drop)]
struct Narrow {
    held: Vec<u8>,
    room: usize,
}

impl Write for Narrow {
    fn write(&mut self, bytes: &[u8]) -> io::Result<usize> {
        if self.held.len() >= self.room {
            return Ok(0);
        }
        match bytes {
            [first, ..] => {
                self.held.push(*first)?;
                Ok(1)
            }
            [] => Ok(0),
        }
    }

    fn flush(&mut self) -> io::Result<()> {
        Ok(())
    }
}

// Of the line of an empty file the front is written that there is room for.
#[test]
fn failed_output(rt: HostRuntime) -> Result<(), Fail> {
    let mut output = Narrow {
        held: Vec::new(rt.alloc()),
        room: 9,
    };
    let mut input: &[u8] = &[];
    let failed = write_report(rt.alloc(), &mut input, &mut output);
    assert!(rt; matches!(&failed, Err(Failure::Output(_))));
    assert_eq!(rt; output.held.as_slice(), b"refused 1".as_slice());
    Ok(())
}

// The value prints this text.
fn check_text<T: fmt::Display + Drop>(
    rt: &(impl Abort + AllocGlobal),
    value: T,
    text: &str,
) -> Result<(), Fail> {
    let printed = value.to_string(rt.alloc())?;
    assert_eq!(rt; printed.as_str(), text);
    Ok(())
}

// The words of docs/REFUSALS.md, "Errors of the programs".
#[test]
fn failures(rt: HostRuntime) -> Result<(), Fail> {
    let unmade = Failure::NoReport(ReportError::Memory.into());
    check_text(&rt, unmade, "no memory for the report")?;
    let unread = Failure::NoReport(io::Error::from(AllocError).into());
    check_text(&rt, unread, "out of memory")?;
    let no_buffer = Failure::NoReport(AllocError.into());
    check_text(&rt, no_buffer, "memory allocation failed")?;
    let unwritten = Failure::Output(io::Error::from_raw_os_error(21));
    check_text(&rt, unwritten, "Is a directory (os error 21)")
}
