// The lines of a press beside those of the report on the same file. The expected lines are those of docs/SEMANTICS.md, by
// hand.
use crate::build::*;
use report::{LEAST_BUFFER, Refusal, ReportError, press};
use rulefile::read;
use std::alloc::{AllocError, Global};
use std::process::Abort;
use std::rc::Rc;
use std::test::Fail;

// A file of three marks of which exactly one is there, with the house sheet of this word.
fn three(heap: Global, house: u8) -> Result<Vec<u8>, AllocError> {
    let mut file = [11, 0, 0, 0, 1, 0, 3, house, 0, 0, 0, 0, 0, 0, 0].to_vec(heap)?;
    file.extend_from_slice(
        b"\x15\0\0\0\x02\0\0\x01\0\0\0\x01\0\0\0\x03\0\x01\0\x01\x01\0\x02\x01\0",
    )?;
    Ok(file)
}

// Adds a wish for the mark.
fn add_wish(file: &mut Vec<u8>, level: u8, weight: i16, mark: u8) -> Result<(), AllocError> {
    let [low, high] = weight.to_le_bytes();
    file.extend_from_slice(&[7, 0, 0, 0, 4, 0, level, low, high, 1, mark])
}

// Adds a strike of the sheet of this word.
fn add_strike(file: &mut Vec<u8>, sheet: u8) -> Result<(), AllocError> {
    file.extend_from_slice(&[11, 0, 0, 0, 5, 0, 3, sheet, 0, 0, 0, 0, 0, 0, 0])
}

// The report and the press on the file have these lines.
fn check_both(
    rt: &(impl Abort + AllocGlobal),
    file: &[u8],
    report: &str,
    pressed: &str,
) -> Result<(), Fail> {
    check_report(rt, file, report)?;
    check_press(rt, file, pressed)
}

// The sample {2} costs 7 at level 8, and is struck, so that {1} is the cheapest sheet that is open: it costs 7 and the first
// weight at level 8, and the second weight at level 1.
fn sample_struck(heap: Global, top: i16, last: i16) -> Result<Vec<u8>, AllocError> {
    let mut file = three(heap, 4)?;
    add_wish(&mut file, 8, 99, 0)?;
    add_wish(&mut file, 8, 7, 1)?;
    add_wish(&mut file, 8, 7, 2)?;
    add_wish(&mut file, 8, top, 1)?;
    add_wish(&mut file, 1, last, 1)?;
    add_strike(&mut file, 4)?;
    Ok(file)
}

// As dear as the sample by all levels: only the distance is greater.
#[test]
fn equal_to_ceiling(rt: HostRuntime) -> Result<(), Fail> {
    let file = sample_struck(rt.alloc(), 0, 0)?;
    let lines = "ok\nsheet 1 cost 7 0 0 0 0 0 0 0 off 2\n";
    check_both(&rt, file.as_slice(), lines, lines)
}

#[test]
fn one_above(rt: HostRuntime) -> Result<(), Fail> {
    let file = sample_struck(rt.alloc(), 1, 0)?;
    let lines = "ok\nsheet 1 cost 8 0 0 0 0 0 0 0 off 2\n";
    check_both(&rt, file.as_slice(), lines, "ok\nno sheet\n")?;
    let file = sample_struck(rt.alloc(), 0, 1)?;
    let lines = "ok\nsheet 1 cost 7 0 0 0 0 0 0 1 off 2\n";
    check_both(&rt, file.as_slice(), lines, "ok\nno sheet\n")
}

#[test]
fn one_below(rt: HostRuntime) -> Result<(), Fail> {
    let file = sample_struck(rt.alloc(), -1, 0)?;
    let lines = "ok\nsheet 1 cost 6 0 0 0 0 0 0 0 off 2\n";
    check_both(&rt, file.as_slice(), lines, lines)?;
    let file = sample_struck(rt.alloc(), 0, -1)?;
    let lines = "ok\nsheet 1 cost 7 0 0 0 0 0 0 -1 off 2\n";
    check_both(&rt, file.as_slice(), lines, lines)
}

// The highest level that differs decides, however much the lowest differs.
#[test]
fn highest_decides(rt: HostRuntime) -> Result<(), Fail> {
    let file = sample_struck(rt.alloc(), 1, -100)?;
    let lines = "ok\nsheet 1 cost 8 0 0 0 0 0 0 -100 off 2\n";
    check_both(&rt, file.as_slice(), lines, "ok\nno sheet\n")?;
    let file = sample_struck(rt.alloc(), -1, 100)?;
    let lines = "ok\nsheet 1 cost 6 0 0 0 0 0 0 100 off 2\n";
    check_both(&rt, file.as_slice(), lines, lines)
}

// The empty sheet breaks the rule, and costs 0 all the same. {2} is earlier than {1}.
#[test]
fn sample_unlawful(rt: HostRuntime) -> Result<(), Fail> {
    let mut file = three(rt.alloc(), 0)?;
    add_wish(&mut file, 3, 1, 0)?;
    let lines = "sheet 2 cost 0 0 0 0 0 0 0 0 off 1\n";
    check_both(&rt, file.as_slice(), lines, lines)?;
    add_wish(&mut file, 3, 1, 1)?;
    add_wish(&mut file, 3, 1, 2)?;
    let lines = "sheet 2 cost 0 0 0 0 0 1 0 0 off 1\n";
    check_both(&rt, file.as_slice(), lines, "no sheet\n")
}

// All 64 marks are there, and the sample has none: the distance is the greatest that there is.
#[test]
fn greatest_distance(rt: HostRuntime) -> Result<(), Fail> {
    let heap = rt.alloc();
    let file = all_marks(heap)?;
    let lines = format!(in heap; "{ALL_MARKS} 0 0 0 0 0 0 0 0 off 64\n")?;
    check_both(&rt, file.as_slice(), lines.as_str(), lines.as_str())
}

// A buffer of 4,095 bytes is refused and stays, and so do the bytes after the lines.
#[test]
fn press_buffers(rt: HostRuntime) -> Result<(), Fail> {
    let heap = rt.alloc();
    let file = Rc::new(heap, read(heap, WORKED)?)?;
    let mut small = vec![in heap; 7; LEAST_BUFFER - 1]?;
    let refused = Err(ReportError::Refused(Refusal::BufferSmall));
    assert_eq!(rt; press(heap, &file, &mut small), refused);
    assert!(rt; small == vec![in heap; 7; LEAST_BUFFER - 1]?);
    let mut large = vec![in heap; 7; 5000]?;
    let length = press(heap, &file, &mut large)?;
    let mut expected = b"ok\nrefused 22\nno sheet\n".to_vec(heap)?;
    assert_eq!(rt; length, expected.len());
    expected.resize(5000, 7)?;
    assert!(rt; large == expected);
    Ok(())
}
