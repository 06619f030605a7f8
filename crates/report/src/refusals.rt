// Why no report is written.
ghost use Rattle.std.specs.Prelude.{◌≡◌, Some};
ghost use Rattle.report.specs.Numbers.{number};
ghost use Rattle.report.specs.Words.{refusal_text, error_text};
ghost use Rattle.report.specs.declared.refusals.ReportError.TheVariants.{Refused, Memory};

use std::alloc::AllocError;
use std::error::Error;
use std::fmt;

// Why a report is refused, with the number by which the refusal is known.
#[derive(Clone, Copy, Debug, PartialEq, Eq)]
pub enum Refusal {
    // The buffer has fewer than 4,096 bytes.
    BufferSmall = 31,
}

impl Refusal {
    // The number by which the refusal is known. One line in each crate that refuses: each promises the numbers of its own
    // cases.
    pub fn number(self) -> u8
        ensures { result ≡ number self }
    {
        self as u8
    }
}

impl fmt::Display for Refusal {
    ghost output = { λ why. Some (refusal_text why) };

    fn fmt<W: fmt::Write>(&self, f: &mut fmt::Formatter<W>) -> fmt::Result {
        match self {
            Refusal::BufferSmall => write!(
                f,
                "refused {}: the buffer has fewer than 4096 bytes",
                self.number()
            ),
        }
    }
}

impl Error for Refusal {}

// Why a report was not written: it is refused, or memory is wanting. Nobody passes the allocation's error on from here. An
// enum of this crate's: it prints words of its own, and the definitions say other things of its cases than of those of
// `ReadError`.
#[derive(Clone, Copy, Debug, PartialEq, Eq)]
pub enum ReportError {
    // The report is refused.
    Refused(Refusal),
    // An allocation failed.
    Memory,
}

impl fmt::Display for ReportError {
    ghost output = { λ e. Some (error_text e) };

    fn fmt<W: fmt::Write>(&self, f: &mut fmt::Formatter<W>) -> fmt::Result {
        match self {
            ReportError::Refused(why) => why.fmt(f),
            ReportError::Memory => f.write_str("no memory for the report"),
        }
    }
}

impl Error for ReportError {}

impl From<Refusal> for ReportError {
    ghost from_gives = { λ refusal r. r ≡ Refused refusal };

    fn from(refusal: Refusal) -> ReportError {
        ReportError::Refused(refusal)
    }
}

impl From<AllocError> for ReportError {
    ghost from_gives = { λ _ r. r ≡ Memory };

    fn from(_e: AllocError) -> ReportError {
        ReportError::Memory
    }
}
