// What the report does with its buffer.
use crate::build::*;
use report::{LEAST_BUFFER, Refusal, ReportError, report};
use std::process::Abort;
use std::test::Fail;

// A buffer of 4,095 bytes is refused whatever the file is, and stays.
fn check_small(rt: &(impl Abort + AllocGlobal), file: &[u8]) -> Result<(), Fail> {
    let heap = rt.alloc();
    let mut buffer = vec![in heap; 7; LEAST_BUFFER - 1]?;
    let refused = Err(ReportError::Refused(Refusal::BufferSmall));
    assert_eq!(rt; report(heap, file, &mut buffer), refused);
    assert!(rt; buffer == vec![in heap; 7; LEAST_BUFFER - 1]?);
    Ok(())
}

#[test]
fn small_buffer(rt: HostRuntime) -> Result<(), Fail> {
    assert_eq!(rt; LEAST_BUFFER, 4096);
    assert_eq!(rt; Refusal::BufferSmall.number(), 31);
    check_small(&rt, WORKED)?;
    check_small(&rt, BAD)
}

// The lines are written, and the bytes after them stay.
fn check_buffer(rt: &(impl Abort + AllocGlobal), size: usize) -> Result<(), Fail> {
    let heap = rt.alloc();
    let mut buffer = vec![in heap; 7; size]?;
    let length = report(heap, WORKED, &mut buffer)?;
    assert_eq!(rt; length, WORKED_LINES.len());
    let mut expected = WORKED_LINES.as_bytes().to_vec(heap)?;
    expected.resize(size, 7)?;
    assert!(rt; buffer == expected);
    Ok(())
}

#[test]
fn large_buffers(rt: HostRuntime) -> Result<(), Fail> {
    check_buffer(&rt, LEAST_BUFFER)?;
    check_buffer(&rt, 5000)
}
