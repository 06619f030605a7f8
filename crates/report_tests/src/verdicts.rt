// Verdicts on files that are given by their bytes.
use crate::build::*;
use judges::{Refusal, Verdict, VerdictError, bytes_verdict};
use std::process::Abort;
use std::test::Fail;

type Answer = Result<Verdict, VerdictError>;

const OUT_OF_RANGE: Answer = Err(VerdictError::Refused(Refusal::MarkRange));

// The worked example: of the marks 0 and 1 one is there.
#[test]
fn worked_bytes(rt: HostRuntime) -> Result<(), Fail> {
    let heap = rt.alloc();
    assert_eq!(rt; bytes_verdict(heap, WORKED, 1), Ok(Verdict::Lawful));
    assert_eq!(rt; bytes_verdict(heap, WORKED, 3), Ok(Verdict::Broken(0)));
    assert_eq!(rt; bytes_verdict(heap, WORKED, 5), Ok(Verdict::Ungrounded(2)));
    assert_eq!(rt; bytes_verdict(heap, WORKED, 16), OUT_OF_RANGE);
    Ok(())
}

// A bad file stands for a head alone, with one mark.
#[test]
fn bad_bytes(rt: HostRuntime) -> Result<(), Fail> {
    let heap = rt.alloc();
    assert_eq!(rt; bytes_verdict(heap, BAD, 0), Ok(Verdict::Lawful));
    assert_eq!(rt; bytes_verdict(heap, BAD, 1), Ok(Verdict::Ungrounded(0)));
    assert_eq!(rt; bytes_verdict(heap, BAD, 2), OUT_OF_RANGE);
    Ok(())
}

#[test]
fn fullest_bytes(rt: HostRuntime) -> Result<(), Fail> {
    let file = fullest_file(rt.alloc())?;
    assert_eq!(rt;
        bytes_verdict(rt.alloc(), file.as_slice(), 0),
        Ok(Verdict::Lawful)
    );
    Ok(())
}
