// Judges and scales that are made from the bytes of a file.
use judges::{Book, PrinterList};
use scales::{Distance, Levels};
use sheets::{Judge, PartSheet, Sheet};
use std::process::Abort;
use std::test::Fail;

// Four marks and the house sheet {1, 2}; of the marks 0 and 1 one is there; mark 0 is not there; weight 3 at level 2 if mark
// 0 is there.
const GOOD: &[u8; 56] = b"\x0b\0\0\0\x01\0\x04\x06\0\0\0\0\0\0\0\
    \x12\0\0\0\x02\0\0\x01\0\0\0\x01\0\0\0\x02\0\x01\0\x01\x01\0\
    \x04\0\0\0\x03\0\x01\x80\
    \x07\0\0\0\x04\0\x02\x03\0\x01\0";

// A head with the same count and house sheet, and a byte of a record that is cut off: it is refused, and stands for a head
// alone.
const CUT: &[u8; 16] = b"\x0b\0\0\0\x01\0\x04\x06\0\0\0\0\0\0\0\0";

// The judge has this count, and allows each of the sheets or not.
fn check_judge<J: Judge>(rt: &impl Abort, judge: &J, count: u8, sheets: &[(Sheet, bool)]) {
    assert_eq!(rt; judge.count(), count);
    for (sheet, allowed) in sheets {
        assert_eq!(rt;
            !judge.dead(PartSheet::of_sheet(*sheet)),
            *allowed,
            "sheet {sheet}"
        );
    }
}

#[test]
fn books(rt: HostRuntime) -> Result<(), Fail> {
    let good = Book::from_bytes(rt.alloc(), GOOD)?;
    let sheets = [(0, false), (1, true), (2, true), (3, false)];
    check_judge(&rt, &good, 4, &sheets);
    let refused = Book::from_bytes(rt.alloc(), CUT)?;
    check_judge(&rt, &refused, 1, &[(0, true), (1, false), (2, false)]);
    Ok(())
}

#[test]
fn lists(rt: HostRuntime) -> Result<(), Fail> {
    let good = PrinterList::from_bytes(rt.alloc(), GOOD)?;
    let sheets = [(0, true), (1, false), (8, true), (16, false)];
    check_judge(&rt, &good, 4, &sheets);
    let refused = PrinterList::from_bytes(rt.alloc(), CUT)?;
    check_judge(&rt, &refused, 1, &[(0, true), (1, true), (2, false)]);
    Ok(())
}

// A head alone has no wishes, so a sheet costs 0 at each level.
#[test]
fn levels(rt: HostRuntime) -> Result<(), Fail> {
    let good = Levels::from_bytes(rt.alloc(), GOOD)?.cost(1);
    let refused = Levels::from_bytes(rt.alloc(), CUT)?.cost(1);
    for level in 1..=8 {
        let expected = if level == 2 { 3 } else { 0 };
        assert_eq!(rt;
            (good.at(level), refused.at(level)),
            (expected, 0),
            "level {level}"
        );
    }
    Ok(())
}

// The house sheet of a head alone is empty.
#[test]
fn distances(rt: HostRuntime) -> Result<(), Fail> {
    let good = Distance::from_bytes(rt.alloc(), GOOD)?;
    assert_eq!(rt; (good.cost(0), good.cost(1)), (2, 3));
    let refused = Distance::from_bytes(rt.alloc(), CUT)?;
    assert_eq!(rt; (refused.cost(0), refused.cost(1)), (0, 1));
    Ok(())
}
