// Refusals of a body, in the order of its fields.
use crate::build::*;
use rulefile::Refusal::{BodyLength, MarkRange, OutOfRange};
use std::process::Abort;
use std::test::Fail;

// A good body for each kind after the head, with each act.
const GOOD: [(u16, &[u8]); 9] = [
    (RULE, &[0, 1, 0, 0, 0, 2, 0, 0, 0, 0]),
    (
        RULE,
        b"\x01\x01\0\0\0\x02\0\0\0\x02\x03\x01\0\x83\x01\0\0\0\0\0\xff\xff\xff\xff\x01\x02\x05\0",
    ),
    (CLAUSE, &[3, 0, 130, 3]),
    (WISH, &[8, 255, 255, 2, 128, 3]),
    (TAGGED_WISH, &[8, 0, 128, 255, 255, 2, 128, 3]),
    (ACT, &[1, 0]),
    (ACT, &[2, 0]),
    (ACT, &[3, 1, 2, 3, 4, 5, 6, 7, 8]),
    (ACT, &[4]),
];

// The body is good. A body that ends before its last field does, or goes on after it, has a wrong length.
fn check_lengths(rt: &(impl Abort + AllocGlobal), kind: u16, body: &[u8]) -> Result<(), Fail> {
    check_record(rt, kind, body, Ok(()))?;
    for n in 0..body.len() {
        check_record(rt, kind, &body[0..n], Err(BodyLength))?;
    }
    let mut longer = body.to_vec(rt.alloc())?;
    longer.push(0)?;
    check_record(rt, kind, longer.as_slice(), Err(BodyLength))
}

#[test]
fn body_length(rt: HostRuntime) -> Result<(), Fail> {
    for (kind, body) in &GOOD {
        check_lengths(&rt, *kind, *body)?;
    }
    Ok(())
}

#[test]
fn head_length(rt: HostRuntime) -> Result<(), Fail> {
    let body = [4, 0, 0, 0, 0, 0, 0, 0, 0, 0];
    check_head(&rt, &body[0..9], Ok(()))?;
    check_head(&rt, &body, Err(BodyLength))?;
    for n in 0..9 {
        check_head(&rt, &body[0..n], Err(BodyLength))?;
    }
    Ok(())
}

// The count and the house sheet of a head.
#[test]
fn head_fields(rt: HostRuntime) -> Result<(), Fail> {
    let cases: [(&[u8], Answer); 14] = [
        (&[0], Err(OutOfRange)),
        (&[65], Err(OutOfRange)),
        (&[128], Err(OutOfRange)),
        (&[0, 0, 0, 0, 0, 0, 0, 0, 0], Err(OutOfRange)),
        (&[1, 0, 0, 0, 0, 0, 0, 0, 0], Ok(())),
        (&[1, 1, 0, 0, 0, 0, 0, 0, 0], Ok(())),
        (&[1, 2, 0, 0, 0, 0, 0, 0, 0], Err(MarkRange)),
        (&[4, 15, 0, 0, 0, 0, 0, 0, 0], Ok(())),
        (&[4, 16, 0, 0, 0, 0, 0, 0, 0], Err(MarkRange)),
        (&[4, 16, 0, 0, 0, 0, 0, 0, 0, 0], Err(MarkRange)),
        (&[63, 255, 255, 255, 255, 255, 255, 255, 127], Ok(())),
        (&[63, 0, 0, 0, 0, 0, 0, 0, 128], Err(MarkRange)),
        (&[64, 255, 255, 255, 255, 255, 255, 255, 255], Ok(())),
        (&[65, 0, 0, 0, 0, 0, 0, 0, 0], Err(OutOfRange)),
    ];
    for (body, expected) in &cases {
        check_head(&rt, *body, *expected)?;
    }
    Ok(())
}

// A field is tested as soon as it is read, whatever comes after it.
#[test]
fn rule_fields(rt: HostRuntime) -> Result<(), Fail> {
    let cases: [(&[u8], Answer); 10] = [
        (&[9], Err(OutOfRange)),
        (&[255], Err(OutOfRange)),
        (&[0, 0, 0, 0, 0, 0, 0, 0, 0, 33], Err(OutOfRange)),
        (&[0, 0, 0, 0, 0, 0, 0, 0, 0, 1, 4], Err(MarkRange)),
        (&[0, 0, 0, 0, 0, 0, 0, 0, 0, 1, 132], Err(MarkRange)),
        (&[0, 0, 0, 0, 0, 0, 0, 0, 0, 1, 127, 0, 0], Err(MarkRange)),
        (
            &[0, 0, 0, 0, 0, 0, 0, 0, 0, 2, 3, 0, 0, 255],
            Err(MarkRange),
        ),
        (&[0, 0, 0, 0, 0, 0, 0, 0, 0, 1, 131, 0], Err(BodyLength)),
        (
            b"\x01\0\0\0\0\0\0\0\0\0\0\0\0\0\0\0\0\0\x21",
            Err(OutOfRange),
        ),
        (
            b"\x01\0\0\0\0\0\0\0\0\0\0\0\0\0\0\0\0\0\x01\x04",
            Err(MarkRange),
        ),
    ];
    for (body, expected) in &cases {
        check_record(&rt, RULE, *body, *expected)?;
    }
    Ok(())
}

// The tag stands between level and weight, and has no range.
#[test]
fn tagged_wish_fields(rt: HostRuntime) -> Result<(), Fail> {
    let cases: [(&[u8], Answer); 15] = [
        (&[0], Err(OutOfRange)),
        (&[9], Err(OutOfRange)),
        (&[1], Err(BodyLength)),
        (&[1, 17], Err(BodyLength)),
        (&[1, 17, 39], Err(BodyLength)),
        (&[1, 17, 39, 0, 0, 1, 0], Ok(())),
        (&[1, 255, 255, 0, 0, 1, 0], Ok(())),
        (&[1, 0, 0, 17], Err(BodyLength)),
        (&[1, 0, 0, 17, 39], Err(OutOfRange)),
        (&[1, 0, 0, 239, 216], Err(OutOfRange)),
        (&[1, 0, 0, 0, 0, 0], Err(OutOfRange)),
        (&[1, 0, 0, 0, 0, 17], Err(OutOfRange)),
        (&[1, 0, 0, 0, 0, 2, 4], Err(MarkRange)),
        (&[1, 0, 0, 0, 0, 2, 3, 132], Err(MarkRange)),
        (&[1, 0, 0, 0, 0, 1, 132, 0], Err(MarkRange)),
    ];
    for (body, expected) in &cases {
        check_record(&rt, TAGGED_WISH, *body, *expected)?;
    }
    Ok(())
}

#[test]
fn other_fields(rt: HostRuntime) -> Result<(), Fail> {
    let cases: [(u16, &[u8], Answer); 17] = [
        (CLAUSE, &[33], Err(OutOfRange)),
        (CLAUSE, &[255, 4], Err(OutOfRange)),
        (CLAUSE, &[2, 4], Err(MarkRange)),
        (CLAUSE, &[2, 0, 132], Err(MarkRange)),
        (CLAUSE, &[1, 4, 0], Err(MarkRange)),
        (CLAUSE, &[2, 3], Err(BodyLength)),
        (WISH, &[0], Err(OutOfRange)),
        (WISH, &[9], Err(OutOfRange)),
        (WISH, &[1, 17, 39], Err(OutOfRange)),
        (WISH, &[1, 239, 216], Err(OutOfRange)),
        (WISH, &[1, 17], Err(BodyLength)),
        (WISH, &[1, 0, 0, 0], Err(OutOfRange)),
        (WISH, &[1, 0, 0, 17], Err(OutOfRange)),
        (WISH, &[1, 0, 0, 2, 4], Err(MarkRange)),
        (WISH, &[1, 0, 0, 1, 132, 0], Err(MarkRange)),
        (ACT, &[0], Err(OutOfRange)),
        (ACT, &[5], Err(OutOfRange)),
    ];
    for (kind, body, expected) in &cases {
        check_record(&rt, *kind, *body, *expected)?;
    }
    Ok(())
}
