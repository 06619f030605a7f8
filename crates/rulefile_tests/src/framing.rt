// Refusals that do not depend on a field of a body.
use crate::build::*;
use rulefile::Refusal::{
    BodyLength, HeadMisplaced, LengthPastEnd, LengthRange, OutOfRange, RecordCut, UnknownKind,
};
use std::test::Fail;

// Faults of the first record are at 0.
#[test]
fn first_record(rt: HostRuntime) -> Result<(), Fail> {
    let cases: [(&[u8], Answer); 19] = [
        (&[], Err(RecordCut)),
        (&[11], Err(RecordCut)),
        (&[11, 0], Err(RecordCut)),
        (&[11, 0, 0], Err(RecordCut)),
        (&[0, 0, 0, 0], Err(LengthRange)),
        (&[1, 0, 0, 0], Err(LengthRange)),
        (&[1, 0, 0, 0, 1], Err(LengthRange)),
        (&[1, 0, 0, 0, 1, 0], Err(LengthRange)),
        (&[2, 0, 0, 0], Err(LengthPastEnd)),
        (&[2, 0, 0, 0, 1], Err(LengthPastEnd)),
        (&[3, 0, 0, 0, 1, 0], Err(LengthPastEnd)),
        (&[2, 0, 0, 0, 0, 0], Err(UnknownKind)),
        (&[2, 0, 0, 0, 6, 0], Err(UnknownKind)),
        (&[2, 0, 0, 0, 7, 0], Err(HeadMisplaced)),
        (&[2, 0, 0, 0, 8, 0], Err(UnknownKind)),
        (&[2, 0, 0, 0, 1, 1], Err(UnknownKind)),
        (&[2, 0, 0, 0, 2, 0], Err(HeadMisplaced)),
        (&[3, 0, 0, 0, 5, 0, 4], Err(HeadMisplaced)),
        (&[2, 0, 0, 0, 1, 0], Err(BodyLength)),
    ];
    for (bytes, expected) in &cases {
        check_file(&rt, *bytes, at(0, *expected))?;
    }
    Ok(())
}

// A file may end after any record. Faults of a later record are at its own offset.
#[test]
fn later_record(rt: HostRuntime) -> Result<(), Fail> {
    let cases: [(&[u8], Answer); 21] = [
        (&[], Ok(())),
        (&[1], Err(RecordCut)),
        (&[1, 1], Err(RecordCut)),
        (&[1, 1, 1], Err(RecordCut)),
        (&[0, 0, 0, 0], Err(LengthRange)),
        (&[1, 0, 0, 0], Err(LengthRange)),
        (&[1, 0, 0, 0, 5], Err(LengthRange)),
        (&[1, 0, 0, 0, 5, 0, 4], Err(LengthRange)),
        (&[3, 0, 1, 0, 5, 0, 4], Err(LengthRange)),
        (&[255, 255, 255, 255, 5, 0, 4], Err(LengthRange)),
        (&[2, 0, 0, 0], Err(LengthPastEnd)),
        (&[2, 0, 0, 0, 6], Err(LengthPastEnd)),
        (&[4, 0, 0, 0, 6, 0, 4], Err(LengthPastEnd)),
        (&[2, 0, 0, 0, 0, 0], Err(UnknownKind)),
        (&[2, 0, 0, 0, 6, 0], Err(UnknownKind)),
        (&[2, 0, 0, 0, 7, 0], Err(BodyLength)),
        (&[2, 0, 0, 0, 8, 0], Err(UnknownKind)),
        (&[2, 0, 0, 0, 7, 1], Err(UnknownKind)),
        (&[3, 0, 0, 0, 5, 1, 4], Err(UnknownKind)),
        (&[2, 0, 0, 0, 1, 0], Err(HeadMisplaced)),
        (
            &[11, 0, 0, 0, 1, 0, 4, 0, 0, 0, 0, 0, 0, 0, 0],
            Err(HeadMisplaced),
        ),
    ];
    for (bytes, expected) in &cases {
        check_later(&rt, *bytes, *expected)?;
    }
    Ok(())
}

// A fault in a body comes before one in the framing of the next record.
#[test]
fn earlier_body_first(rt: HostRuntime) -> Result<(), Fail> {
    check_later(&rt, &[3, 0, 0, 0, 5, 0, 0, 1], Err(OutOfRange))?;
    check_later(&rt, &[2, 0, 0, 0, 5, 0, 0, 0, 0, 0, 0, 0], Err(BodyLength))
}

// A body of 1,022 bytes has the length 1,024. That passes, and another fault is found. A byte more is outside its range.
#[test]
fn length_1024_and_1025(rt: HostRuntime) -> Result<(), Fail> {
    for (kind, n, expected) in [
        (RULE, 1022, Err(BodyLength)),
        (CLAUSE, 1022, Err(BodyLength)),
        (TAGGED_WISH, 1022, Err(OutOfRange)),
        (6, 1022, Err(UnknownKind)),
        (8, 1022, Err(UnknownKind)),
        (HEAD, 1022, Err(HeadMisplaced)),
        (RULE, 1023, Err(LengthRange)),
        (TAGGED_WISH, 1023, Err(LengthRange)),
        (6, 1023, Err(LengthRange)),
        (HEAD, 1023, Err(LengthRange)),
    ] {
        let body = vec![in rt.alloc(); 0; n]?;
        check_record(&rt, kind, body.as_slice(), expected)?;
    }
    Ok(())
}
