// Marks from words, and the sheet of given marks.
ghost use Rattle.std.specs.Prelude.{◌≡◌, false, nat_lt, MatchResult};
ghost use Rattle.std.specs.List.{list_all};
ghost use Rattle.workshop.specs.Marks.{IsSheetOf};

use anyhow::bail;
use judges::Refusal;
use sheets::{Mark, Sheet, with_mark};

// The mark that the word says: digits alone, of a number from 0 to 255.
pub fn mark_of(word: &str) -> anyhow::Result<Mark> {
    let are_digits = word.bytes().all(|byte| byte.is_ascii_digit());
    match word.parse::<Mark>() {
        Ok(mark) if are_digits => Ok(mark),
        _ => bail!("{word:?} is no mark, which is a number from 0 to 255"),
    }
}

// The sheet of these marks, in which a mark that is given twice is once. It is refused exactly where one is not below the
// count.
pub fn sheet_of(marks: &[Mark], count: u8) -> Result<Sheet, Refusal>
    ensures { MatchResult result (IsSheetOf count marks.now) (λ _. list_all (λ m. nat_lt m count) marks.now ≡ false) }
{
    let mut sheet = 0;
    for mark in marks {
        if *mark >= count {
            return Err(Refusal::MarkRange);
        }
        sheet = with_mark(sheet, *mark);
    }
    Ok(sheet)
}
