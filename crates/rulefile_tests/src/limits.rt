// The sizes of files, and how many records of a kind they have.
use crate::build::*;
use crate::values::sizes;
use rulefile::Refusal::{FileTooLong, LengthPastEnd, TooManyOfKind};
use rulefile::read;
use std::alloc::{AllocError, Global};
use std::process::Abort;
use std::test::Fail;

// The smallest body of a record of each list, without a tag, and the offset after a head and 256 such records.
const SMALLEST: [(u16, &[u8], u32); 4] = [
    (RULE, &[0, 0, 0, 0, 0, 0, 0, 0, 0, 0], 4111),
    (CLAUSE, &[0], 1807),
    (WISH, &[1, 0, 0, 1, 0], 2831),
    (ACT, &[4], 1807),
];

// The smallest body of a wish with a tag, and the same offset.
const SMALLEST_TAGGED: (u16, &[u8], u32) = (TAGGED_WISH, &[1, 0, 0, 0, 0, 1, 0], 3343);

// How many wishes with a tag there are, and the offset after a head, these, and wishes without to make 256.
const MIXED: [(usize, u32); 5] = [(0, 2831), (1, 2833), (128, 3087), (255, 3341), (256, 3343)];

// 256 records of a kind are read. The next is refused at its own offset, here with no body.
fn check_kind(
    rt: &(impl Abort + AllocGlobal),
    kind: u16,
    body: &[u8],
    offset: u32,
) -> Result<(), Fail> {
    let mut file = head_alone(rt.alloc(), 4)?;
    add_records(&mut file, 256, kind, body)?;
    check_file(rt, file.as_slice(), Ok(()))?;
    add_record(&mut file, kind, &[])?;
    check_file(rt, file.as_slice(), at(offset, Err(TooManyOfKind)))
}

#[test]
fn broken_record_257(rt: HostRuntime) -> Result<(), Fail> {
    for (kind, body, offset) in &SMALLEST {
        check_kind(&rt, *kind, *body, *offset)?;
    }
    let (kind, body, offset) = SMALLEST_TAGGED;
    check_kind(&rt, kind, body, offset)
}

// So many wishes with a tag, and wishes without to make 256, which stand before or behind them.
fn mixed_wishes(heap: Global, tagged: usize, is_tagged_first: bool) -> Result<Vec<u8>, AllocError> {
    let (_, with_tag, _) = SMALLEST_TAGGED;
    let without = [1, 0, 0, 1, 0];
    let others = 256usize.saturating_sub(tagged);
    let mut file = head_alone(heap, 4)?;
    if is_tagged_first {
        add_records(&mut file, tagged, TAGGED_WISH, with_tag)?;
        add_records(&mut file, others, WISH, &without)?;
    } else {
        add_records(&mut file, others, WISH, &without)?;
        add_records(&mut file, tagged, TAGGED_WISH, with_tag)?;
    }
    Ok(file)
}

// The file is read, and with one more record of the kind refused there.
fn check_one_more(
    rt: &(impl Abort + AllocGlobal),
    file: &[u8],
    kind: u16,
    offset: u32,
) -> Result<(), Fail> {
    check_file(rt, file, Ok(()))?;
    let mut longer = file.to_vec(rt.alloc())?;
    add_record(&mut longer, kind, &[])?;
    check_file(rt, longer.as_slice(), at(offset, Err(TooManyOfKind)))
}

// Wishes with and without a tag are counted together: the record that makes 257 is refused, of whichever kind it is.
#[test]
fn wishes_of_both_kinds(rt: HostRuntime) -> Result<(), Fail> {
    for (tagged, offset) in MIXED {
        let file = mixed_wishes(rt.alloc(), tagged, true)?;
        check_one_more(&rt, file.as_slice(), WISH, offset)?;
        check_one_more(&rt, file.as_slice(), TAGGED_WISH, offset)?;
        let file = mixed_wishes(rt.alloc(), tagged, false)?;
        check_one_more(&rt, file.as_slice(), WISH, offset)?;
        check_one_more(&rt, file.as_slice(), TAGGED_WISH, offset)?;
    }
    Ok(())
}

#[test]
fn good_record_257(rt: HostRuntime) -> Result<(), Fail> {
    let mut file = head_alone(rt.alloc(), 4)?;
    add_records(&mut file, 257, ACT, &[4])?;
    check_file(&rt, file.as_slice(), at(1807, Err(TooManyOfKind)))
}

fn most_records(heap: Global) -> Result<Vec<u8>, AllocError> {
    let mut file = head_alone(heap, 4)?;
    for (kind, body, _) in &SMALLEST {
        add_records(&mut file, 256, *kind, *body)?;
    }
    Ok(file)
}

// Each of these kinds is counted by itself.
#[test]
fn records_of_all_kinds(rt: HostRuntime) -> Result<(), Fail> {
    let bytes = most_records(rt.alloc())?;
    let file = read(rt.alloc(), bytes.as_slice())?;
    assert_eq!(rt; sizes(&file), (256, 256, 256, 256));
    Ok(())
}

// A good file of 32,768 bytes: 15 + 34 * 952 + 9 * 39 + 34.
fn longest_file(heap: Global) -> Result<Vec<u8>, AllocError> {
    let mut file = head_alone(heap, 4)?;
    add_records(&mut file, 34, RULE, rule_body(heap, 8, 32)?.as_slice())?;
    add_records(
        &mut file,
        9,
        CLAUSE,
        with_literals(heap, &[], 32)?.as_slice(),
    )?;
    add_record(&mut file, CLAUSE, with_literals(heap, &[], 27)?.as_slice())?;
    Ok(file)
}

// A byte more is too long, before the byte is looked at. A byte less cuts the last record.
#[test]
fn file_32768_and_32769(rt: HostRuntime) -> Result<(), Fail> {
    let mut file = longest_file(rt.alloc())?;
    assert_eq!(rt; file.len(), 32_768);
    check_file(&rt, file.as_slice(), Ok(()))?;
    file.push(0)?;
    check_file(&rt, file.as_slice(), at(0, Err(FileTooLong)))?;
    file.truncate(32_767);
    check_file(&rt, file.as_slice(), at(32_734, Err(LengthPastEnd)))
}
