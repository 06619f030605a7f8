// What is read of good files. The handle comes first in every assertion, so it is no part of a struct with the file.
use crate::build::*;
use rulefile::{Act, Kind, Refusal, RuleFile, WeakConstraint, read, read_or_head_alone};
use sheets::{Interpretation, Literal};
use std::process::Abort;
use std::test::Fail;

// The example of docs/FORMAT.md: head, rule, wish, pin and bar.
const WORKED: &[u8; 64] = b"\x0b\0\0\0\x01\0\x04\0\0\0\0\0\0\0\0\
    \x12\0\0\0\x02\0\0\x01\0\0\0\x01\0\0\0\x02\0\x01\0\x01\x01\0\
    \x07\0\0\0\x04\0\x01\x03\0\x01\0\
    \x04\0\0\0\x05\0\x01\0\
    \x04\0\0\0\x05\0\x02\0";

fn plain(mark: u8) -> Literal {
    Literal {
        mark,
        negated: false,
    }
}

fn negated(mark: u8) -> Literal {
    Literal {
        mark,
        negated: true,
    }
}

// How many rules, clauses, wishes and acts there are.
pub fn sizes(file: &RuleFile) -> (usize, usize, usize, usize) {
    (
        file.rules.len(),
        file.clauses.len(),
        file.wishes.len(),
        file.acts.len(),
    )
}

// There is one rule, with no body, and its head has these bounds and so many elements.
fn check_rule(
    rt: &impl Abort,
    file: &RuleFile,
    low: u32,
    high: Option<u32>,
    elements: usize,
) -> Result<(), Fail> {
    let rule = only(file.rules.as_slice())?;
    assert_eq!(rt; (rule.head.low, rule.head.high), (low, high));
    assert_eq!(rt; (rule.head.elements.len(), rule.body.len()), (elements, 0));
    Ok(())
}

// The head of the only rule has this element in this place.
fn check_element(
    rt: &impl Abort,
    file: &RuleFile,
    place: usize,
    literal: Literal,
    weight: u16,
) -> Result<(), Fail> {
    let rule = only(file.rules.as_slice())?;
    let Some(element) = rule.head.elements.get(place) else {
        return Err(Fail::new("no such element"));
    };
    assert_eq!(rt; (element.literal, element.weight), (literal, weight));
    Ok(())
}

// There is one wish, with this level, tag and weight, and one literal.
fn check_wish(
    rt: &impl Abort,
    file: &RuleFile,
    expected: (u8, Option<u16>, i16),
    literal: Literal,
) -> Result<(), Fail> {
    let wish = only(file.wishes.as_slice())?;
    assert_eq!(rt; (wish.level, wish.tag, wish.weight), expected);
    assert_eq!(rt; *only(wish.literals.as_slice())?, literal);
    Ok(())
}

fn check_worked_records(rt: &impl Abort, file: &RuleFile) -> Result<(), Fail> {
    check_rule(rt, file, 1, Some(1), 2)?;
    check_element(rt, file, 0, plain(0), 1)?;
    check_element(rt, file, 1, plain(1), 1)?;
    check_wish(rt, file, (1, None, 3), plain(0))?;
    assert_eq!(rt; file.acts.as_slice(), [Act::Pin(0), Act::Bar(0)].as_slice());
    Ok(())
}

fn check_worked(rt: &impl Abort, file: &RuleFile) -> Result<(), Fail> {
    assert_eq!(rt; (file.count, file.house), (4, 0));
    assert_eq!(rt; sizes(file), (1, 0, 1, 2));
    assert_eq!(rt;
        file.kinds.as_slice(),
        [Kind::Rule, Kind::Wish, Kind::Act, Kind::Act].as_slice()
    );
    check_worked_records(rt, file)
}

#[test]
fn worked_example(rt: HostRuntime) -> Result<(), Fail> {
    check_worked(&rt, &read(rt.alloc(), WORKED)?)
}

// A good file is read as itself.
#[test]
fn worked_or_head_alone(rt: HostRuntime) -> Result<(), Fail> {
    check_worked(&rt, &read_or_head_alone(rt.alloc(), WORKED)?)
}

fn check_head_alone(rt: &impl Abort, file: &RuleFile) {
    assert_eq!(rt; (file.count, file.house), (1, 0));
    assert_eq!(rt; (sizes(file), file.kinds.len()), ((0, 0, 0, 0), 0));
}

// A refused file stands for a head alone, with count 1 and an empty house sheet.
#[test]
fn refused_or_head_alone(rt: HostRuntime) -> Result<(), Fail> {
    let bytes = b"\x0b\0\0\0\x01\0\x04\0\0\0\0\0\0\0\0\x03\0\0\0\x04\0\x01";
    check_file(&rt, bytes, at(15, Err(Refusal::BodyLength)))?;
    check_head_alone(&rt, &read_or_head_alone(rt.alloc(), bytes)?);
    Ok(())
}

// The lowest byte of a number stands first.
#[test]
fn numbers_of_a_rule(rt: HostRuntime) -> Result<(), Fail> {
    let body = [0, 4, 3, 2, 1, 254, 255, 255, 255, 1, 131, 2, 1];
    let file = accepted_of(rt.alloc(), 4, &[(RULE, &body)])?;
    check_rule(&rt, &file, 0x0102_0304, Some(4_294_967_294), 1)?;
    check_element(&rt, &file, 0, negated(3), 0x0102)
}

// 4,294,967,295 as the high bound is none.
#[test]
fn no_high_bound(rt: HostRuntime) -> Result<(), Fail> {
    let body = [0, 255, 255, 255, 255, 255, 255, 255, 255, 0];
    let file = accepted_of(rt.alloc(), 4, &[(RULE, &body)])?;
    check_rule(&rt, &file, 4_294_967_295, None, 0)
}

// There is one rule, with these low bounds in its head and its two body constraints.
fn check_lows(rt: &impl Abort, file: &RuleFile, lows: (u32, u32, u32)) -> Result<(), Fail> {
    let rule = only(file.rules.as_slice())?;
    let [first, second] = rule.body.as_slice() else {
        return Err(Fail::new("not two constraints"));
    };
    assert_eq!(rt; (rule.head.low, first.low, second.low), lows);
    Ok(())
}

// The head constraint comes first, then those of the body.
#[test]
fn constraints_of_a_rule(rt: HostRuntime) -> Result<(), Fail> {
    let body = b"\x02\x01\0\0\0\0\0\0\0\0\x02\0\0\0\0\0\0\0\0\x03\0\0\0\0\0\0\0\0";
    check_lows(
        &rt,
        &accepted_of(rt.alloc(), 4, &[(RULE, body)])?,
        (1, 2, 3),
    )
}

#[test]
fn weights_of_wishes(rt: HostRuntime) -> Result<(), Fail> {
    for weight in [10_000, 1, 0, -1, -256, -10_000] {
        let [a, b] = i16::to_le_bytes(weight);
        let file = accepted_of(rt.alloc(), 4, &[(WISH, &[8, a, b, 1, 3])])?;
        check_wish(&rt, &file, (8, None, weight), plain(3))?;
    }
    Ok(())
}

// A tag may be any number of two bytes.
#[test]
fn tags_of_wishes(rt: HostRuntime) -> Result<(), Fail> {
    for tag in [
        0, 1, 2, 127, 128, 255, 256, 258, 513, 10_001, 32_767, 32_768, 55_535, 65_280, 65_534,
        65_535,
    ] {
        let [a, b] = u16::to_le_bytes(tag);
        let records: [(u16, &[u8]); 1] = [(TAGGED_WISH, &[8, a, b, 255, 255, 1, 131])];
        let file = accepted_of(rt.alloc(), 4, &records)?;
        check_wish(&rt, &file, (8, Some(tag), -1), negated(3))?;
    }
    Ok(())
}

// The tag stands before the weight, the lower byte of each first.
#[test]
fn tag_and_weight(rt: HostRuntime) -> Result<(), Fail> {
    let records: [(u16, &[u8]); 1] = [(TAGGED_WISH, &[5, 2, 1, 4, 3, 1, 0])];
    let file = accepted_of(rt.alloc(), 4, &records)?;
    check_wish(&rt, &file, (5, Some(0x0102), 0x0304), plain(0))?;
    let records: [(u16, &[u8]); 1] = [(TAGGED_WISH, &[5, 240, 216, 16, 39, 1, 0])];
    let file = accepted_of(rt.alloc(), 4, &records)?;
    check_wish(&rt, &file, (5, Some(55_536), 10_000), plain(0))
}

// There is one clause, with a mark and its "not".
fn check_clause(rt: &impl Abort, file: &RuleFile, mark: u8) -> Result<(), Fail> {
    let clause = only(file.clauses.as_slice())?;
    let [first, second] = clause.literals.as_slice() else {
        return Err(Fail::new("not two literals"));
    };
    assert_eq!(rt; (*first, *second), (plain(mark), negated(mark)));
    Ok(())
}

// 128 is added to a mark for "not".
#[test]
fn literals(rt: HostRuntime) -> Result<(), Fail> {
    for mark in 0..64 {
        let file = accepted_of(rt.alloc(), 64, &[(CLAUSE, &[2, mark, 128 + mark])])?;
        check_clause(&rt, &file, mark)?;
    }
    Ok(())
}

fn check_acts(rt: &impl Abort, acts: &[Act]) -> Result<(), Fail> {
    assert_eq!(rt;
        acts,
        [
            Act::Pin(255),
            Act::Bar(128),
            Act::Strike(0x0200_0000_0000_0001),
            Act::Undo,
        ]
        .as_slice()
    );
    Ok(())
}

// The mark of an act is the whole byte, and a sheet has its lowest marks in its first byte.
#[test]
fn acts(rt: HostRuntime) -> Result<(), Fail> {
    let records: [(u16, &[u8]); 4] = [
        (ACT, &[1, 255]),
        (ACT, &[2, 128]),
        (ACT, &[3, 1, 0, 0, 0, 0, 0, 0, 2]),
        (ACT, &[4]),
    ];
    let file = accepted_of(rt.alloc(), 4, &records)?;
    check_acts(&rt, file.acts.as_slice())
}

#[test]
fn house_sheet(rt: HostRuntime) -> Result<(), Fail> {
    let bytes = b"\x0b\0\0\0\x01\0\x40\x01\x02\x03\x04\x05\x06\x07\x08";
    let file = read(rt.alloc(), bytes)?;
    assert_eq!(rt; (file.count, file.house), (64, 0x0807_0605_0403_0201));
    Ok(())
}

// The kinds are as in `mixed_kinds`, and the wishes have these levels and tags.
fn check_mixed(rt: &impl Abort, file: &RuleFile) -> Result<(), Fail> {
    assert_eq!(rt;
        file.kinds.as_slice(),
        [
            Kind::Act,
            Kind::Wish,
            Kind::TaggedWish,
            Kind::Clause,
            Kind::Wish,
        ]
        .as_slice()
    );
    let [first, second, third] = file.wishes.as_slice() else {
        return Err(Fail::new("not three wishes"));
    };
    assert_eq!(rt; (first.level, second.level, third.level), (5, 8, 3));
    assert_eq!(rt; (first.tag, second.tag, third.tag), (None, Some(3), None));
    Ok(())
}

// Kinds may be mixed, and each is read in file order; wishes with and without a tag are one list.
#[test]
fn mixed_kinds(rt: HostRuntime) -> Result<(), Fail> {
    let records: [(u16, &[u8]); 5] = [
        (ACT, &[4]),
        (WISH, &[5, 0, 0, 1, 0]),
        (TAGGED_WISH, &[8, 3, 0, 0, 0, 1, 0]),
        (CLAUSE, &[0]),
        (WISH, &[3, 0, 0, 1, 0]),
    ];
    check_mixed(&rt, &accepted_of(rt.alloc(), 4, &records)?)
}

// What a weak constraint costs at which level, and whether {0} and {1} hold one of its members.
fn held_by(weak: &impl WeakConstraint) -> (u8, i16, bool, bool) {
    let [first, second] = [1, 2].map(|sheet| weak.is_one_held(Interpretation::of_sheet(sheet)));
    (weak.level(), weak.weight(), first, second)
}

// The weak constraints with one member, and those with more, are these.
fn check_weak(rt: &(impl Abort + AllocGlobal), file: &RuleFile) -> Result<(), Fail> {
    let singles: Vec<(u8, i16, bool, bool)> = file.singles.iter().map(held_by).collect(rt.alloc())?;
    let groups: Vec<(u8, i16, bool, bool)> = file.groups.iter().map(held_by).collect(rt.alloc())?;
    assert_eq!(rt;
        singles.as_slice(),
        [
            (1, 3, false, true),
            (1, 2, false, true),
            (1, 4, true, false),
            (2, 3, false, true),
            (1, 3, true, false),
        ]
        .as_slice()
    );
    assert_eq!(rt; groups.as_slice(), [(1, 3, true, true)].as_slice());
    Ok(())
}

// Wishes without a tag come first, and then groups in the order of their first records; a group of one wish is a single.
// Equal tags at another level, or with another weight, make another group.
#[test]
fn groups(rt: HostRuntime) -> Result<(), Fail> {
    let records: [(u16, &[u8]); 8] = [
        (TAGGED_WISH, &[1, 9, 0, 3, 0, 1, 0]),
        (WISH, &[1, 3, 0, 1, 1]),
        (TAGGED_WISH, &[1, 9, 0, 4, 0, 1, 0]),
        (TAGGED_WISH, &[2, 9, 0, 3, 0, 1, 1]),
        (TAGGED_WISH, &[1, 9, 0, 3, 0, 2, 0, 128]),
        (TAGGED_WISH, &[1, 0, 9, 3, 0, 1, 0]),
        (TAGGED_WISH, &[1, 9, 0, 3, 0, 1, 1]),
        (WISH, &[1, 2, 0, 1, 1]),
    ];
    check_weak(&rt, &accepted_of(rt.alloc(), 4, &records)?)
}

#[test]
fn numbers_of_refusals(rt: HostRuntime) {
    let cases = [
        (Refusal::FileTooLong, 10),
        (Refusal::RecordCut, 11),
        (Refusal::LengthRange, 12),
        (Refusal::LengthPastEnd, 13),
        (Refusal::UnknownKind, 14),
        (Refusal::HeadMisplaced, 15),
        (Refusal::TooManyOfKind, 16),
        (Refusal::BodyLength, 17),
        (Refusal::OutOfRange, 18),
        (Refusal::MarkRange, 19),
    ];
    for (refusal, number) in cases {
        assert_eq!(rt; refusal.number(), number);
    }
}
