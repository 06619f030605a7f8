// How often wishes with a tag count once together.
use crate::costs::{counts_before, wish_holds};
use rulefile::RuleFile;
use sheets::{Sheet, first_marks};
use std::fmt;
use std::fmt::Formatter;

// How many wishes have a tag, how many sheets there are, and in how many of them two wishes of one group hold.
#[derive(Clone, Copy, Default)]
pub struct Groups {
    tagged: u64,
    sheets: u64,
    shared: u64,
}

impl Groups {
    // What there is of them in a book.
    pub fn of(file: &RuleFile) -> Groups {
        let tagged = file.wishes.iter().filter(|wish| wish.tag.is_some());
        let shared = (0..=first_marks(file.count))
            .filter(|sheet| is_shared(file, *sheet))
            .fold(0u64, |shared, _| shared.wrapping_add(1));
        Groups {
            tagged: tagged.count() as u64,
            sheets: first_marks(file.count).wrapping_add(1),
            shared,
        }
    }

    // Those of both.
    pub fn plus(self, other: Groups) -> Groups {
        Groups {
            tagged: self.tagged.wrapping_add(other.tagged),
            sheets: self.sheets.wrapping_add(other.sheets),
            shared: self.shared.wrapping_add(other.shared),
        }
    }
}

impl fmt::Display for Groups {
    fn fmt<W: fmt::Write>(&self, f: &mut Formatter<W>) -> fmt::Result {
        let Groups {
            tagged,
            sheets,
            shared,
        } = *self;
        write!(
            f,
            "{tagged} wishes with a tag; two of a group hold in {shared} of {sheets} sheets"
        )
    }
}

// Two wishes of one group hold in the sheet.
fn is_shared(file: &RuleFile, sheet: Sheet) -> bool {
    let wishes = file.wishes.as_slice();
    wishes.iter().enumerate().any(|(place, wish)| wish_holds(wish, sheet)
        && counts_before(wishes, place, wish, sheet))
}
