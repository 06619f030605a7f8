// The fault of a refused file: in which record and field it is, what was found there, and what is allowed. The record at
// the offset of the refusal is walked again, by the same tests in the same order as the reader's.
ghost use Rattle.std.specs.Prelude.{◌≡◌, IfSome};
ghost use Rattle.workshop.specs.Faults.{why_of};

use crate::walk::{Record, Records, Walk, cut};
use rulefile::limits::{MOST_BYTES, MOST_OF_KIND};
use rulefile::{BadFile, Kind, Refusal};

// Which constraint of a rule.
#[derive(Clone, Copy)]
pub enum RulePart {
    Head,
    // With its number.
    Body(u8),
}

// A field of a record's body, as docs/FORMAT.md names them. Elements and literals have numbers.
#[derive(Clone, Copy)]
pub enum Field {
    Count,
    HouseSheet,
    BodyCount,
    LowBound(RulePart),
    HighBound(RulePart),
    ElementCount(RulePart),
    Element(RulePart, u8),
    ElementWeight(RulePart, u8),
    LiteralCount,
    Literal(u8),
    Level,
    Tag,
    Weight,
    Code,
    Mark,
    Sheet,
}

// What was found, and what is allowed there where no constant says it.
#[derive(Clone, Copy)]
pub enum Found {
    // So many bytes in the file, or so many that were read of it.
    FileLength(usize),
    // So many bytes left for a length.
    Cut(usize),
    // This length.
    Length(u32),
    // This length, and so many bytes left after it.
    PastEnd(u32, usize),
    // This number of a kind.
    UnknownKind(u16),
    // In the first record, the number of a kind that is no head's.
    NoHead(u16),
    // A head in a later record.
    SecondHead,
    // `MOST_OF_KIND` records of its kind before it; wishes of both kinds count as one.
    TooMany,
    // So many bytes left for a field, and how many it takes.
    Missing(Field, usize, usize),
    // So many bytes left over.
    LeftOver(usize),
    // A number in a field, and the lowest and the highest that are allowed.
    Number(Field, i32, i32, i32),
    // A mark in a field, and the count.
    Mark(Field, u8, u8),
}

impl Found {
    // The refusal of a file with this fault.
    fn why(self) -> Refusal
        ensures { result ≡ why_of self }
    {
        match self {
            Found::FileLength(_) => Refusal::FileTooLong,
            Found::Cut(_) => Refusal::RecordCut,
            Found::Length(_) => Refusal::LengthRange,
            Found::PastEnd(_, _) => Refusal::LengthPastEnd,
            Found::UnknownKind(_) => Refusal::UnknownKind,
            Found::NoHead(_) | Found::SecondHead => Refusal::HeadMisplaced,
            Found::TooMany => Refusal::TooManyOfKind,
            Found::Missing(_, _, _) | Found::LeftOver(_) => Refusal::BodyLength,
            Found::Number(_, _, _, _) => Refusal::OutOfRange,
            Found::Mark(_, _, _) => Refusal::MarkRange,
        }
    }
}

// Where a fault is and what it is.
#[derive(Clone, Copy)]
pub struct Fault {
    // The number of the record; the head is record 0.
    pub record: usize,
    // Its kind, if it has one.
    pub kind: Option<Kind>,
    pub found: Found,
}

// The kind as which records of this kind are counted.
fn counted_as(kind: Kind) -> Kind {
    match kind {
        Kind::TaggedWish => Kind::Wish,
        _ => kind,
    }
}

// The record is counted as this kind.
fn is_counted_as(record: &Record<'_>, kind: Kind) -> bool {
    match Kind::try_from(record.kind) {
        Ok(own) => counted_as(own) == kind,
        Err(_) => false,
    }
}

// What is wrong with the kind of a record, where `number` records stand before it and so many of them are counted as its kind.
fn find_in_kind(number: usize, kind: Kind, code: u16, same: usize) -> Option<Found> {
    match (number, kind) {
        (0, Kind::Head) => None,
        (0, _) => Some(Found::NoHead(code)),
        (_, Kind::Head) => Some(Found::SecondHead),
        _ if same >= MOST_OF_KIND => Some(Found::TooMany),
        _ => None,
    }
}

// The count of the file whose first record is at the front; before its head is read, no mark is below the count.
fn count_of(bytes: &[u8]) -> u8 {
    match Records(bytes).next() {
        Some(
            Record {
                body: [count, ..],
                ..
            },
        ) => *count,
        _ => 0,
    }
}

// The fault of the record that begins behind the records of `before`.
fn find(before: &[u8], bytes: &[u8]) -> Option<Fault> {
    let number = Records(before).count();
    let at = |kind, found| Fault {
        record: number,
        kind,
        found,
    };
    let record = match cut(bytes) {
        Ok(record) => record,
        Err(found) => return Some(at(None, found)),
    };
    let code = record.kind;
    let Ok(kind) = Kind::try_from(code) else {
        return Some(at(None, Found::UnknownKind(code)));
    };
    let counted = counted_as(kind);
    let same = Records(before)
        .filter(|other| is_counted_as(other, counted))
        .count();
    let mut walk = Walk {
        rest: record.body,
        count: count_of(before),
    };
    let found = find_in_kind(number, kind, code, same).or_else(|| walk.whole(kind).err())?;
    Some(at(Some(kind), found))
}

// The fault for which the file of these bytes is refused so. None where another one is found than the refusal says.
pub fn fault_of(bytes: &[u8], bad: BadFile) -> Option<Fault>
    ensures { IfSome result (λ fault. why_of fault.found ≡ bad.why) }
{
    let fault = if bytes.len() > MOST_BYTES {
        Fault {
            record: 0,
            kind: None,
            found: Found::FileLength(bytes.len()),
        }
    } else {
        let at = bad.at as usize;
        find(bytes.get(..at)?, bytes.get(at..)?)?
    };
    if fault.found.why() == bad.why {
        Some(fault)
    } else {
        None
    }
}
