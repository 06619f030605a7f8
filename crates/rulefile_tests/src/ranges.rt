// The ends of each range after the head: what is just inside is read, what is just outside is out of its range.
use crate::build::*;
use rulefile::Refusal::OutOfRange;
use std::test::Fail;

#[test]
fn levels(rt: HostRuntime) -> Result<(), Fail> {
    for (level, expected) in [
        (0, Err(OutOfRange)),
        (1, Ok(())),
        (8, Ok(())),
        (9, Err(OutOfRange)),
        (255, Err(OutOfRange)),
    ] {
        check_record(&rt, WISH, &[level, 0, 0, 1, 0], expected)?;
        check_record(&rt, TAGGED_WISH, &[level, 0, 0, 0, 0, 1, 0], expected)?;
    }
    Ok(())
}

#[test]
fn wish_weights(rt: HostRuntime) -> Result<(), Fail> {
    let cases: [(i16, Answer); 7] = [
        (10_000, Ok(())),
        (10_001, Err(OutOfRange)),
        (i16::MAX, Err(OutOfRange)),
        (0, Ok(())),
        (-10_000, Ok(())),
        (-10_001, Err(OutOfRange)),
        (i16::MIN, Err(OutOfRange)),
    ];
    for (weight, expected) in cases {
        let [a, b] = weight.to_le_bytes();
        check_record(&rt, WISH, &[1, a, b, 1, 0], expected)?;
        check_record(&rt, TAGGED_WISH, &[1, 0, 0, a, b, 1, 0], expected)?;
    }
    Ok(())
}

#[test]
fn wish_literals(rt: HostRuntime) -> Result<(), Fail> {
    for (n, expected) in [
        (0, Err(OutOfRange)),
        (1, Ok(())),
        (16, Ok(())),
        (17, Err(OutOfRange)),
    ] {
        let body = with_literals(rt.alloc(), &[1, 0, 0], n)?;
        check_record(&rt, WISH, body.as_slice(), expected)?;
        let body = with_literals(rt.alloc(), &[1, 0, 0, 0, 0], n)?;
        check_record(&rt, TAGGED_WISH, body.as_slice(), expected)?;
    }
    Ok(())
}

#[test]
fn clause_literals(rt: HostRuntime) -> Result<(), Fail> {
    for (n, expected) in [
        (0, Ok(())),
        (1, Ok(())),
        (32, Ok(())),
        (33, Err(OutOfRange)),
    ] {
        let body = with_literals(rt.alloc(), &[], n)?;
        check_record(&rt, CLAUSE, body.as_slice(), expected)?;
    }
    Ok(())
}

// The number of body constraints, and the number of elements in each constraint.
#[test]
fn rule_sizes(rt: HostRuntime) -> Result<(), Fail> {
    for (constraints, elements, expected) in [
        (0, 0, Ok(())),
        (0, 32, Ok(())),
        (0, 33, Err(OutOfRange)),
        (8, 0, Ok(())),
        (8, 32, Ok(())),
        (8, 33, Err(OutOfRange)),
        (9, 0, Err(OutOfRange)),
    ] {
        let body = rule_body(rt.alloc(), constraints, elements)?;
        check_record(&rt, RULE, body.as_slice(), expected)?;
    }
    Ok(())
}

#[test]
fn act_codes(rt: HostRuntime) -> Result<(), Fail> {
    let cases: [(&[u8], Answer); 8] = [
        (&[0, 0], Err(OutOfRange)),
        (&[1, 255], Ok(())),
        (&[2, 255], Ok(())),
        (&[2, 4], Ok(())),
        (&[3, 255, 255, 255, 255, 255, 255, 255, 255], Ok(())),
        (&[4], Ok(())),
        (&[5, 0], Err(OutOfRange)),
        (&[255, 0], Err(OutOfRange)),
    ];
    for (body, expected) in &cases {
        check_record(&rt, ACT, *body, *expected)?;
    }
    Ok(())
}
