// Acts at the limits of marks and of the docket, where the one lawful sheet has all 64 marks.
use crate::build::*;
use std::process::Abort;
use std::test::Fail;

// The pins of these marks have these lines.
fn check_pins(rt: &(impl Abort + AllocGlobal), marks: &[u8], lines: &str) -> Result<(), Fail> {
    let heap = rt.alloc();
    let mut file = all_marks(heap)?;
    for mark in marks {
        file.extend_from_slice(&[4, 0, 0, 0, 5, 0, 1, *mark])?;
    }
    let lines = format!(in heap; "{lines}{ALL_MARKS} 0 0 0 0 0 0 0 0 off 64\n")?;
    check_report(rt, file.as_slice(), lines.as_str())
}

#[test]
fn mark_63_and_64(rt: HostRuntime) -> Result<(), Fail> {
    check_pins(&rt, &[63, 64], "ok\nrefused 21\n")
}

#[test]
fn act_32_and_33(rt: HostRuntime) -> Result<(), Fail> {
    let marks: Vec<u8> = (0..33).collect(rt.alloc())?;
    let mut lines = "ok\n".repeat(rt.alloc(), 32)?;
    lines.push_str("refused 25\n")?;
    check_pins(&rt, marks.as_slice(), lines.as_str())
}
