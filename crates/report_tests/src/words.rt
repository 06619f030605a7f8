// What refusals, errors and costs print, case by case, in the words of docs/REFUSALS.md. Their contracts say what a `Display`
// writes where it answers `Ok`; that it does answer so is left to these tests.
use report::ReportError;
use rulefile::{BadFile, ReadError, Refusal, read};
use scales::Levels;
use std::alloc::{AllocError, Global};
use std::fmt;
use std::process::Abort;
use std::rc::Rc;
use std::test::Fail;

// The value prints this text.
fn check_text<T: fmt::Display + Drop>(
    rt: &(impl Abort + AllocGlobal),
    value: T,
    text: &str,
) -> Result<(), Fail> {
    let printed = value.to_string(rt.alloc())?;
    assert_eq!(rt; printed.as_str(), text);
    Ok(())
}

// Each refusal of a file, the line for it at an offset, and its words.
const REFUSED: [(Refusal, u32, &str, &str); 10] = [
    (
        Refusal::FileTooLong,
        0,
        "refused 10 at 0",
        "the file is longer than 32768 bytes",
    ),
    (
        Refusal::RecordCut,
        15,
        "refused 11 at 15",
        "fewer than four bytes are left for a record's length, or the file is empty",
    ),
    (
        Refusal::LengthRange,
        15,
        "refused 12 at 15",
        "a record's length is not from 2 to 1024",
    ),
    (
        Refusal::LengthPastEnd,
        32_734,
        "refused 13 at 32734",
        "a record's length is more than the bytes left after it",
    ),
    (
        Refusal::UnknownKind,
        15,
        "refused 14 at 15",
        "a record's kind is not from 1 to 5 and not 7",
    ),
    (
        Refusal::HeadMisplaced,
        0,
        "refused 15 at 0",
        "the first record is not a head, or a later one is",
    ),
    (
        Refusal::TooManyOfKind,
        4111,
        "refused 16 at 4111",
        "there are more than 256 records of this kind; 4 and 7 count as one",
    ),
    (
        Refusal::BodyLength,
        15,
        "refused 17 at 15",
        "a record's body ends before a field, or goes on after its last",
    ),
    (
        Refusal::OutOfRange,
        9,
        "refused 18 at 9",
        "a number is outside its range",
    ),
    (
        Refusal::MarkRange,
        100,
        "refused 19 at 100",
        "a mark of an element or of the house sheet is not below the count",
    ),
];

#[test]
fn refused_files(rt: HostRuntime) -> Result<(), Fail> {
    for (why, at, line, words) in &REFUSED {
        let bad = BadFile { why: *why, at: *at };
        check_text(&rt, *why, *words)?;
        check_text(&rt, bad, *line)?;
        check_text(&rt, ReadError::Refused(bad), *line)?;
    }
    check_text(
        &rt,
        ReadError::Memory(AllocError),
        "no memory to read the file",
    )
}

#[test]
fn reports_not_made(rt: HostRuntime) -> Result<(), Fail> {
    let small = "refused 31: the buffer has fewer than 4096 bytes";
    check_text(&rt, report::Refusal::BufferSmall, small)?;
    check_text(&rt, ReportError::from(report::Refusal::BufferSmall), small)?;
    check_text(&rt, ReportError::Memory, "no memory for the report")
}

// A head with one mark, and a wish for the empty sheet at each level, from level 8 down with these weights.
fn wishes(heap: Global, weights: [i16; 8]) -> Result<Vec<u8>, AllocError> {
    let mut file = b"\x0b\0\0\0\x01\0\x01\0\0\0\0\0\0\0\0".to_vec(heap)?;
    let mut level = 8u8;
    for weight in weights {
        let [low, high] = weight.to_le_bytes();
        file.extend_from_slice(&[7, 0, 0, 0, 4, 0, level, low, high, 1, 128])?;
        level = level.saturating_sub(1);
    }
    Ok(file)
}

#[test]
fn costs(rt: HostRuntime) -> Result<(), Fail> {
    let heap = rt.alloc();
    let bytes = wishes(heap, [1, -2, 30, -400, 5000, -10_000, 0, 7])?;
    let file = Rc::new(heap, read(heap, bytes.as_slice())?)?;
    let levels = Levels::new(file);
    check_text(&rt, levels.cost(0), "1 -2 30 -400 5000 -10000 0 7")?;
    check_text(&rt, levels.cost(1), "0 0 0 0 0 0 0 0")
}
