// Files, and what is expected of their reports.
use report::{LEAST_BUFFER, press, report};
use rulefile::read;
use std::alloc::{AllocError, Global};
use std::process::Abort;
use std::rc::Rc;
use std::test::Fail;

// The example of docs/FORMAT.md: head, rule, wish, pin and bar.
pub const WORKED: &[u8; 64] = b"\x0b\0\0\0\x01\0\x04\0\0\0\0\0\0\0\0\x12\0\0\0\x02\0\0\x01\0\0\0\
    \x01\0\0\0\x02\0\x01\0\x01\x01\0\x07\0\0\0\x04\0\x01\x03\0\x01\0\x04\0\0\0\x05\0\x01\0\
    \x04\0\0\0\x05\0\x02\0";

pub const WORKED_LINES: &str = "ok\nrefused 22\nsheet 0 cost 0 0 0 0 0 0 0 3 off 1\n";

// A head, and a wish whose body ends after its level.
pub const BAD: &[u8; 22] = b"\x0b\0\0\0\x01\0\x04\0\0\0\0\0\0\0\0\x03\0\0\0\x04\0\x01";

// A head with 64 marks and an empty house sheet.
const WIDE_HEAD: &[u8; 15] = b"\x0b\0\0\0\x01\0\x40\0\0\0\0\0\0\0\0";

// How the line of the sheet with all 64 marks begins.
pub const ALL_MARKS: &str = "sheet 0 1 2 3 4 5 6 7 8 9 10 11 12 13 14 15 16 17 18 19 20 21 22 23 \
    24 25 26 27 28 29 30 31 32 33 34 35 36 37 38 39 40 41 42 43 44 45 46 47 48 49 50 51 52 53 54 \
    55 56 57 58 59 60 61 62 63 cost";

// Adds a rule without body, by which the 32 marks up to `end` are there.
fn add_facts(file: &mut Vec<u8>, start: u8, end: u8) -> Result<(), AllocError> {
    file.extend_from_slice(b"\x6c\0\0\0\x02\0\0\x20\0\0\0\xff\xff\xff\xff\x20")?;
    for mark in start..end {
        file.extend_from_slice(&[mark, 1, 0])?;
    }
    Ok(())
}

// A file whose one lawful sheet has all 64 marks.
pub fn all_marks(heap: Global) -> Result<Vec<u8>, AllocError> {
    let mut file = WIDE_HEAD.to_vec(heap)?;
    add_facts(&mut file, 0, 32)?;
    add_facts(&mut file, 32, 64)?;
    Ok(file)
}

// As many records of each list as there can be: rules that always hold, clauses that the empty sheet keeps, wishes for it, of
// which half have a tag and are one group, and undos that are refused.
pub fn fullest_file(heap: Global) -> Result<Vec<u8>, AllocError> {
    let mut file = b"\x0b\0\0\0\x01\0\x01\0\0\0\0\0\0\0\0".to_vec(heap)?;
    let rule = b"\x0f\0\0\0\x02\0\0\0\0\0\0\xff\xff\xff\xff\x01\0\x01\0";
    file.extend_from_slice(rule.repeat(heap, 256)?.as_slice())?;
    let clause = b"\x04\0\0\0\x03\0\x01\x80";
    file.extend_from_slice(clause.repeat(heap, 256)?.as_slice())?;
    let wish = b"\x07\0\0\0\x04\0\x01\xf0\xd8\x01\x80";
    file.extend_from_slice(wish.repeat(heap, 128)?.as_slice())?;
    let tagged = b"\x09\0\0\0\x07\0\x01\0\0\xf0\xd8\x01\x80";
    file.extend_from_slice(tagged.repeat(heap, 128)?.as_slice())?;
    let undo = b"\x03\0\0\0\x05\0\x04";
    file.extend_from_slice(undo.repeat(heap, 256)?.as_slice())?;
    Ok(file)
}

// The report on the file has these lines.
pub fn check_report(rt: &(impl Abort + AllocGlobal), file: &[u8], lines: &str) -> Result<(), Fail> {
    let mut buffer = vec![in rt.alloc(); 0; LEAST_BUFFER]?;
    let length = report(rt.alloc(), file, &mut buffer)?;
    assert_eq!(rt; length, lines.len());
    buffer.truncate(length);
    assert_eq!(rt; buffer.as_slice(), lines.as_bytes());
    Ok(())
}

// The press on the file has these lines.
pub fn check_press(rt: &(impl Abort + AllocGlobal), file: &[u8], lines: &str) -> Result<(), Fail> {
    let heap = rt.alloc();
    let file = Rc::new(heap, read(heap, file)?)?;
    let mut buffer = vec![in heap; 0; LEAST_BUFFER]?;
    let length = press(heap, &file, &mut buffer)?;
    buffer.truncate(length);
    assert_eq!(rt; buffer.as_slice(), lines.as_bytes());
    Ok(())
}
