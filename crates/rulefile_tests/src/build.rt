// Builds files, and checks what the reader answers. The allocator is a parameter of its own and comes first, as in the
// library's calls that allocate. Tests go through their tables by a loop each: a table holds what its test gives and expects.
use rulefile::{BadFile, ReadError, Refusal, RuleFile, read};
use std::alloc::{AllocError, Global};
use std::process::Abort;
use std::test::Fail;

// The numbers by which a file knows the kinds of its records. Tests write records of numbers that no kind has, too.
pub const HEAD: u16 = 1;

pub const RULE: u16 = 2;

pub const CLAUSE: u16 = 3;

pub const WISH: u16 = 4;

pub const ACT: u16 = 5;

pub const TAGGED_WISH: u16 = 7;

// That a file is read, or why it is refused.
pub type Answer = Result<(), Refusal>;

// A head with count 4 and an empty house sheet.
const HEAD_ONLY: &[u8; 15] = b"\x0b\0\0\0\x01\0\x04\0\0\0\0\0\0\0\0";

// The same head, and an undo.
const HEAD_AND_UNDO: &[u8; 22] = b"\x0b\0\0\0\x01\0\x04\0\0\0\0\0\0\0\0\x03\0\0\0\x05\0\x04";

// Adds a record with the right length.
pub fn add_record(file: &mut Vec<u8>, kind: u16, body: &[u8]) -> Result<(), AllocError> {
    let length = body.len().wrapping_add(2).to_le_bytes();
    file.extend_from_slice(&length[0..4])?;
    file.extend_from_slice(&kind.to_le_bytes())?;
    file.extend_from_slice(body)
}

// Adds `n` equal records.
pub fn add_records(file: &mut Vec<u8>, n: usize, kind: u16, body: &[u8]) -> Result<(), AllocError> {
    for _ in 0..n {
        add_record(file, kind, body)?;
    }
    Ok(())
}

// A head with an empty house sheet. It has 15 bytes.
pub fn head_alone(heap: Global, count: u8) -> Result<Vec<u8>, AllocError> {
    let mut file = Vec::new(heap);
    add_record(&mut file, HEAD, &[count, 0, 0, 0, 0, 0, 0, 0, 0])?;
    Ok(file)
}

// A head, and then these records.
fn file_of(heap: Global, count: u8, records: &[(u16, &[u8])]) -> Result<Vec<u8>, AllocError> {
    let mut file = head_alone(heap, count)?;
    for (kind, body) in records {
        add_record(&mut file, *kind, *body)?;
    }
    Ok(file)
}

// A constraint that always holds, with so many elements of mark 0.
fn constraint(heap: Global, elements: u8) -> Result<Vec<u8>, AllocError> {
    let mut bytes = vec![in heap; 0, 0, 0, 0, 255, 255, 255, 255, elements]?;
    let listed = [0, 1, 0].repeat(heap, usize::from(elements))?;
    bytes.extend_from_slice(listed.as_slice())?;
    Ok(bytes)
}

// The body of a rule with so many body constraints, and so many elements in each constraint.
pub fn rule_body(heap: Global, constraints: u8, elements: u8) -> Result<Vec<u8>, AllocError> {
    let one = constraint(heap, elements)?;
    let mut body = vec![in heap; constraints]?;
    let all = one.repeat(heap, usize::from(constraints) + 1)?;
    body.extend_from_slice(all.as_slice())?;
    Ok(body)
}

// The first bytes of a body, a count of literals, and so many literals.
pub fn with_literals(heap: Global, first: &[u8], literals: u8) -> Result<Vec<u8>, AllocError> {
    let mut body = first.to_vec(heap)?;
    body.push(literals)?;
    body.extend_from_slice([0].repeat(heap, usize::from(literals))?.as_slice())?;
    Ok(body)
}

// What is read of a head with this count and then these records.
pub fn accepted_of(heap: Global, count: u8, records: &[(u16, &[u8])]) -> Result<RuleFile, Fail> {
    let file = file_of(heap, count, records)?;
    Ok(read(heap, file.as_slice())?)
}

// The item of a list that should have one.
pub fn only<T>(items: &[T]) -> Result<&T, Fail> {
    match items {
        [item] => Ok(item),
        _ => Err(Fail::new("not one item")),
    }
}

// The answer for the record at the offset.
pub fn at(offset: u32, answer: Answer) -> Result<(), BadFile> {
    answer.map_err(|why| BadFile { why, at: offset })
}

// The file is answered so.
pub fn check_file(
    rt: &(impl Abort + AllocGlobal),
    bytes: &[u8],
    expected: Result<(), BadFile>,
) -> Result<(), Fail> {
    let size = bytes.len();
    let answer = read(rt.alloc(), bytes).map(|_| ());
    assert_eq!(rt;
        answer,
        expected.map_err(ReadError::Refused),
        "{size} bytes: {bytes:?}"
    );
    Ok(())
}

// What begins with `start` and goes on with a record of these bytes is answered so, at the offset of that record.
fn check_after(
    rt: &(impl Abort + AllocGlobal),
    start: &[u8],
    offset: u32,
    bytes: &[u8],
    expected: Answer,
) -> Result<(), Fail> {
    let mut file = start.to_vec(rt.alloc())?;
    file.extend_from_slice(bytes)?;
    check_file(rt, file.as_slice(), at(offset, expected))
}

// These bytes are answered so after a head with count 4, and also after a head and an undo.
pub fn check_later(
    rt: &(impl Abort + AllocGlobal),
    bytes: &[u8],
    expected: Answer,
) -> Result<(), Fail> {
    check_after(rt, HEAD_ONLY, 15, bytes, expected)?;
    check_after(rt, HEAD_AND_UNDO, 22, bytes, expected)
}

// A record after the head is answered so.
pub fn check_record(
    rt: &(impl Abort + AllocGlobal),
    kind: u16,
    body: &[u8],
    expected: Answer,
) -> Result<(), Fail> {
    let mut bytes = Vec::new(rt.alloc());
    add_record(&mut bytes, kind, body)?;
    check_later(rt, bytes.as_slice(), expected)
}

// A head with this body is answered so.
pub fn check_head(
    rt: &(impl Abort + AllocGlobal),
    body: &[u8],
    expected: Answer,
) -> Result<(), Fail> {
    let mut file = Vec::new(rt.alloc());
    add_record(&mut file, HEAD, body)?;
    check_file(rt, file.as_slice(), at(0, expected))
}
