// The book: the rules of a file, as a judge.
ghost use Rattle.std.specs.Prelude.{◌≡◌, map, IfOk};
ghost use Rattle.std.specs.Rc.{rc_value};
ghost use Rattle.rulefile.specs.Answers.{file_of};
ghost use Rattle.rulefile.specs.Format.{decode, file_or_head_alone};
ghost use Rattle.rulefile.specs.Model.{rule_of};
ghost use Rattle.judges.specs.Books.{lawful, book_of};
ghost use Rattle.rulefile.proofs.Fits.{fit_parts};
ghost use Rattle.judges.specs.laws.BookLaws.{book_laws};

use crate::parts::has_dead_rule;
use crate::verdicts::{Verdict, rules_verdict};
use rulefile::{Rule, RuleFile, read_or_head_alone};
use sheets::{Judge, PartSheet, Sheet};
use std::alloc::{AllocError, Global};
use std::rc::Rc;

// Allows the lawful sheets of a file, which it shares with other judges and scales. It holds what `PrinterList` does, and
// means another thing.
#[derive(Drop)]
pub struct Book {
    // Its rules are the book.
    file: Rc<RuleFile>,
}

impl Book {
    // The book of the file.
    pub fn new(file: Rc<RuleFile>) -> Book
        ensures { result.file ≡ file }
    {
        Book { file }
    }

    // The book of the file that the bytes stand for; refused bytes stand for a head alone.
    pub fn from_bytes(heap: Global, bytes: &[u8]) -> Result<Book, AllocError>
        ensures { IfOk result (λ b. file_of b.file.value ≡ file_or_head_alone (decode bytes.now)) }
    {
        let file = read_or_head_alone(heap, bytes)?;
        Ok(Book::new(Rc::new(heap, file)?))
    }
}

// The verdict on the sheet is that it is lawful.
fn is_lawful(rules: &[Rule], sheet: Sheet) -> bool
    ensures { result ≡ lawful (map rule_of rules.now) sheet }
{
    matches!(rules_verdict(rules, sheet), Verdict::Lawful)
}

impl Judge for Book {
    ghost judging = { λ b. book_of (file_of b.file.value) };

    ghost keeps_laws = { λ j. book_laws (file_of j.file.value) (fit_parts _ (rc_value j.file).fit) };

    fn count(&self) -> u8 {
        self.file.count
    }

    // A rule has a hopeless head and only sure body constraints, or the part-sheet is full and its sheet not lawful.
    fn dead(&self, part: PartSheet) -> bool {
        let rules = self.file.rules.as_slice();
        has_dead_rule(rules, part) || part.is_full() && !is_lawful(rules, part.present())
    }
}
