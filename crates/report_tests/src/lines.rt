// The lines of small files, and of the file whose report is longest.
use crate::build::*;
use std::alloc::{AllocError, Global};
use std::test::Fail;

#[test]
fn worked_example(rt: HostRuntime) -> Result<(), Fail> {
    check_report(&rt, WORKED, WORKED_LINES)
}

#[test]
fn bad_file(rt: HostRuntime) -> Result<(), Fail> {
    check_report(&rt, BAD, "refused 17 at 15\n")
}

// A head alone allows the empty sheet. After a clause without literals there is no sheet.
#[test]
fn empty_sheet_and_none(rt: HostRuntime) -> Result<(), Fail> {
    let head = b"\x0b\0\0\0\x01\0\x01\0\0\0\0\0\0\0\0";
    check_report(&rt, head, "sheet cost 0 0 0 0 0 0 0 0 off 0\n")?;
    let mut file = head.to_vec(rt.alloc())?;
    file.extend_from_slice(b"\x03\0\0\0\x03\0\0")?;
    check_report(&rt, file.as_slice(), "no sheet\n")
}

// Two wishes of weight 3 at level 1 without a tag, two with the tag 5, one with 6; and with the tag 5 one of weight 4, and one
// at level 2. All hold in the empty sheet. The two with the tag 5 that are equal in level and weight count once.
const GROUPS: &[u8; 102] = b"\x0b\0\0\0\x01\0\x01\0\0\0\0\0\0\0\0\
    \x07\0\0\0\x04\0\x01\x03\0\x01\x80\
    \x07\0\0\0\x04\0\x01\x03\0\x01\x80\
    \x09\0\0\0\x07\0\x01\x05\0\x03\0\x01\x80\
    \x09\0\0\0\x07\0\x01\x05\0\x03\0\x01\x80\
    \x09\0\0\0\x07\0\x01\x06\0\x03\0\x01\x80\
    \x09\0\0\0\x07\0\x01\x05\0\x04\0\x01\x80\
    \x09\0\0\0\x07\0\x02\x05\0\x03\0\x01\x80";

#[test]
fn groups_of_wishes(rt: HostRuntime) -> Result<(), Fail> {
    check_report(&rt, GROUPS, "sheet cost 0 0 0 0 0 0 3 16 off 0\n")
}

// Adds so many wishes of weight -10,000 at the level, if mark 0 is there.
fn add_wishes(file: &mut Vec<u8>, level: u8, times: usize) -> Result<(), AllocError> {
    let wish = [7, 0, 0, 0, 4, 0, level, 240, 216, 1, 0];
    let wishes = wish.repeat(*file.allocator(), times)?;
    file.extend_from_slice(wishes.as_slice())
}

// 256 undos that are refused, and a sheet line than which none is longer: it has all marks, a distance of two digits, and
// negative sums with 49 digits in all, one of seven and seven of six. A sum of six digits takes 10 wishes, and one of seven
// takes 100. So two sums of seven leave 56 of 256 wishes for the other six, one of which then has five digits at most.
fn longest_file(heap: Global) -> Result<Vec<u8>, AllocError> {
    let mut file = all_marks(heap)?;
    let undos = b"\x03\0\0\0\x05\0\x04".repeat(heap, 256)?;
    file.extend_from_slice(undos.as_slice())?;
    for level in 1..8 {
        add_wishes(&mut file, level, 10)?;
    }
    add_wishes(&mut file, 8, 100)?;
    Ok(file)
}

// 256 lines of 11 bytes, 2,816 in all, and a line of 265: the word `sheet` 5, the marks 10 * 2 + 54 * 3, ` cost` 5, the sums
// 9 + 7 * 8, ` off ` 5, the distance 2, and its end 1.
#[test]
fn longest_report(rt: HostRuntime) -> Result<(), Fail> {
    let heap = rt.alloc();
    let mut lines = "refused 26\n".repeat(heap, 256)?;
    lines.push_str(ALL_MARKS)?;
    lines.push_str(" -1000000")?;
    lines.push_str(" -100000".repeat(heap, 7)?.as_str())?;
    lines.push_str(" off 64\n")?;
    assert_eq!(rt; lines.len(), 3081);
    check_report(&rt, longest_file(heap)?.as_slice(), lines.as_str())
}

// A file with as many records of each list as there can be is not too much for the memory.
#[test]
fn fullest_file_reported(rt: HostRuntime) -> Result<(), Fail> {
    let heap = rt.alloc();
    let mut lines = "refused 26\n".repeat(heap, 256)?;
    lines.push_str("sheet cost 0 0 0 0 0 0 0 -1290000 off 0\n")?;
    check_report(&rt, fullest_file(heap)?.as_slice(), lines.as_str())
}
