// The verdict on a sheet, by the rules of a file.
ghost use Rattle.std.specs.Prelude.{◌≡◌};
ghost use Rattle.rulefile.specs.Answers.{file_of};
ghost use Rattle.rulefile.specs.Format.{decode, file_or_head_alone};
ghost use Rattle.judges.specs.Verdicts.{Judged, BytesJudged};
ghost use Rattle.judges.specs.declared.answers.VerdictError.TheVariants.{Refused, Memory};

use crate::verdicts::{Refusal, Verdict, rules_verdict};
use rulefile::{RuleFile, read_or_head_alone};
use sheets::{Sheet, within_count};
use std::alloc::{AllocError, Global};

// Why no verdict is given. No `Display`, and the allocation's error is dropped: nobody prints this or passes it on.
#[derive(Clone, Copy, Debug, PartialEq, Eq)]
pub enum VerdictError {
    // A verdict is refused.
    Refused(Refusal),
    // Memory is wanting.
    Memory,
}

impl From<Refusal> for VerdictError {
    ghost from_gives = { λ why r. r ≡ Refused why };

    fn from(why: Refusal) -> VerdictError {
        VerdictError::Refused(why)
    }
}

impl From<AllocError> for VerdictError {
    ghost from_gives = { λ _ r. r ≡ Memory };

    fn from(_e: AllocError) -> VerdictError {
        VerdictError::Memory
    }
}

// Whether the sheet is lawful, and if not, why; refused where a mark of it is not below the count.
pub fn sheet_verdict(file: &RuleFile, sheet: Sheet) -> Result<Verdict, Refusal>
    ensures { Judged (file_of file.now) sheet result }
{
    if !within_count(sheet, file.count) {
        return Err(Refusal::MarkRange);
    }
    Ok(rules_verdict(file.rules.as_slice(), sheet))
}

// The same for a file that is given by its bytes; refused bytes stand for a head alone.
pub fn bytes_verdict(heap: Global, bytes: &[u8], sheet: Sheet) -> Result<Verdict, VerdictError>
    ensures { BytesJudged (file_or_head_alone (decode bytes.now)) sheet result }
{
    let file = read_or_head_alone(heap, bytes)?;
    Ok(sheet_verdict(&file, sheet)?)
}
