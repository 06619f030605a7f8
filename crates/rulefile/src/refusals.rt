// Why a file is not read.
ghost use Rattle.std.specs.Prelude.{◌≡◌, Some};
ghost use Rattle.rulefile.specs.Numbers.{number};
ghost use Rattle.rulefile.specs.Words.{refusal_words, bad_file_words, read_error_words};
ghost use Rattle.std.specs.declared.alloc.AllocError.{AllocError};
ghost use Rattle.rulefile.specs.declared.refusals.Fault.TheVariants.{Bad, Memory};

use crate::limits::{LEAST_LENGTH, MOST_BYTES, MOST_LENGTH, MOST_OF_KIND};
use crate::records::Kind;
use std::alloc::{AllocError, AllocFailed};
use std::error::Error;
use std::fmt;

// Why a file is refused.
#[derive(Clone, Copy, Debug, PartialEq, Eq)]
pub enum Refusal {
    // The file has more than `MOST_BYTES` bytes.
    FileTooLong = 10,
    // One to three bytes are left for a record, or the file is empty.
    RecordCut = 11,
    // A record's length is not from `LEAST_LENGTH` to `MOST_LENGTH`.
    LengthRange = 12,
    // A record's length exceeds the bytes left after it.
    LengthPastEnd = 13,
    // A record's kind has the number of none.
    UnknownKind = 14,
    // The first record is not a head, or a later one is.
    HeadMisplaced = 15,
    // There are `MOST_OF_KIND` records of this kind before it; wishes of both kinds count as one.
    TooManyOfKind = 16,
    // A body ends before a field, or goes on after its last.
    BodyLength = 17,
    // A number is outside its range.
    OutOfRange = 18,
    // A mark of a rule, a clause, a wish or the house sheet is not below the count.
    MarkRange = 19,
}

impl Refusal {
    // The number by which the refusal is known. One line in each crate that refuses: each promises the numbers of its own
    // cases.
    pub fn number(self) -> u8
        ensures { result ≡ number self }
    {
        self as u8
    }
}

impl fmt::Display for Refusal {
    ghost output = { λ why. Some (refusal_words why) };

    fn fmt<W: fmt::Write>(&self, f: &mut fmt::Formatter<W>) -> fmt::Result {
        match self {
            Refusal::FileTooLong => write!(f, "the file is longer than {MOST_BYTES} bytes"),
            Refusal::RecordCut => f.write_str(
                "fewer than four bytes are left for a record's length, or the file is empty",
            ),
            Refusal::LengthRange => write!(
                f,
                "a record's length is not from {LEAST_LENGTH} to {MOST_LENGTH}"
            ),
            Refusal::LengthPastEnd => f.write_str(
                "a record's length is more than the bytes left after it",
            ),
            Refusal::UnknownKind => write!(
                f,
                "a record's kind is not from {} to {} and not {}",
                Kind::Head.number(),
                Kind::Act.number(),
                Kind::TaggedWish.number()
            ),
            Refusal::HeadMisplaced => f.write_str(
                "the first record is not a head, or a later one is",
            ),
            Refusal::TooManyOfKind => write!(
                f,
                "there are more than {MOST_OF_KIND} records of this kind; {} and {} count as one",
                Kind::Wish.number(),
                Kind::TaggedWish.number()
            ),
            Refusal::BodyLength => f.write_str(
                "a record's body ends before a field, or goes on after its last",
            ),
            Refusal::OutOfRange => f.write_str("a number is outside its range"),
            Refusal::MarkRange => f.write_str(
                "a mark of an element or of the house sheet is not below the count",
            ),
        }
    }
}

impl Error for Refusal {}

// A refused file: why, and where the record concerned begins.
#[derive(Clone, Copy, Debug, PartialEq, Eq)]
pub struct BadFile {
    // Why the file is refused.
    pub why: Refusal,
    // The offset of its first byte; 0 where the file is too long.
    pub at: u32,
}

impl fmt::Display for BadFile {
    ghost output = { λ bad. Some (bad_file_words bad) };

    fn fmt<W: fmt::Write>(&self, f: &mut fmt::Formatter<W>) -> fmt::Result {
        write!(f, "refused {} at {}", self.why.number(), self.at)
    }
}

impl Error for BadFile {}

// Why a file was not read. An enum of this crate's, as in each crate with such an error: each prints words of its own.
#[derive(Clone, Copy, Debug, PartialEq, Eq)]
pub enum ReadError {
    // The file is refused.
    Refused(BadFile),
    // Memory is wanting.
    Memory(AllocError),
}

impl fmt::Display for ReadError {
    ghost output = { λ error. Some (read_error_words error) };

    fn fmt<W: fmt::Write>(&self, f: &mut fmt::Formatter<W>) -> fmt::Result {
        match self {
            ReadError::Refused(bad) => write!(f, "{bad}"),
            ReadError::Memory(_) => f.write_str("no memory to read the file"),
        }
    }
}

impl Error for ReadError {}

impl From<AllocError> for ReadError {
    ghost use Rattle.std.specs.Prelude.{◌≡◌};
    ghost use Rattle.rulefile.specs.declared.refusals.ReadError.TheVariants.{Memory};

    ghost from_gives = { λ error r. r ≡ Memory error };

    fn from(error: AllocError) -> ReadError {
        ReadError::Memory(error)
    }
}

// Why a part of a file was not read, before the offset is known.
#[derive(Clone, Copy, Debug, PartialEq, Eq)]
pub enum Fault {
    // The file is refused.
    Bad(Refusal),
    // Memory is wanting.
    Memory(AllocError),
}

impl Fault {
    ghost use Rattle.std.specs.Prelude.{◌≤◌};
    ghost use Rattle.rulefile.specs.Ranges.{most_bytes};
    ghost use Rattle.rulefile.specs.Answers.{located_at};

    // The fault of the record at an offset, as the reader answers it.
    pub(crate) fn located(self, at: usize) -> ReadError
        requires { at ≤ most_bytes }
        ensures { result ≡ located_at self at }
    {
        match self {
            Fault::Bad(why) => ReadError::Refused(BadFile { why, at: at as u32 }),
            Fault::Memory(error) => ReadError::Memory(error),
        }
    }
}

impl From<Refusal> for Fault {
    ghost from_gives = { λ why r. r ≡ Bad why };

    fn from(why: Refusal) -> Fault {
        Fault::Bad(why)
    }
}

impl<T: Drop> From<AllocFailed<T>> for Fault {
    ghost from_gives = { λ _ r. (e : AllocError) × (r ≡ Memory e) };

    fn from(e: AllocFailed<T>) -> Fault {
        Fault::Memory(e.into())
    }
}
