// The printer's list: the clauses of a file, as a judge.
ghost use Rattle.std.specs.Prelude.{◌≡◌, true, map, IfOk, MatchOption};
ghost use Rattle.std.specs.Rc.{rc_value};
ghost use Rattle.std.specs.List.{list_all, list_any};
ghost use Rattle.sheets.specs.Literals.{held};
ghost use Rattle.rulefile.specs.Answers.{file_of};
ghost use Rattle.rulefile.specs.Format.{decode, file_or_head_alone};
ghost use Rattle.rulefile.specs.Model.{clause_of};
ghost use Rattle.judges.specs.Clauses.{kept, list_of, FirstBrokenClause};
ghost use Rattle.rulefile.proofs.Fits.{fit_parts};
ghost use Rattle.judges.specs.laws.ListLaws.{list_laws};

use rulefile::{Clause, RuleFile, read_or_head_alone};
use sheets::{Interpretation, Judge, PartSheet, Sheet, within_count};
use std::alloc::{AllocError, Global};
use std::rc::Rc;

// Allows the sheets of marks below the count in which each clause of a file has a literal that holds.
#[derive(Drop)]
pub struct PrinterList {
    // Its clauses are the list.
    file: Rc<RuleFile>,
}

impl PrinterList {
    // The printer's list of the file.
    pub fn new(file: Rc<RuleFile>) -> PrinterList
        ensures { result.file ≡ file }
    {
        PrinterList { file }
    }

    // The printer's list of the file that the bytes stand for; refused bytes stand for a head alone.
    pub fn from_bytes(heap: Global, bytes: &[u8]) -> Result<PrinterList, AllocError>
        ensures { IfOk result (λ l. file_of l.file.value ≡ file_or_head_alone (decode bytes.now)) }
    {
        let file = read_or_head_alone(heap, bytes)?;
        Ok(PrinterList::new(Rc::new(heap, file)?))
    }
}

// Each clause has a literal that is held.
fn are_kept(clauses: &[Clause], by: Interpretation) -> bool
    ensures { result ≡ list_all (list_any (held by)) (map clause_of clauses.now) }
{
    clauses.iter().all(|clause| clause.is_one_held(by))
}

// The lowest number of a clause that does not hold in the sheet, as they are numbered in file order from 0.
pub fn first_broken_clause(clauses: &[Clause], sheet: Sheet) -> Option<usize>
    ensures { MatchOption result (kept (map clause_of clauses.now) sheet ≡ true) (FirstBrokenClause (map clause_of clauses.now) sheet) }
{
    let by = Interpretation::of_sheet(sheet);
    clauses.iter().position(|clause| !clause.is_one_held(by))
}

impl Judge for PrinterList {
    ghost judging = { λ l. list_of (file_of l.file.value) };

    ghost keeps_laws = { λ j. list_laws (file_of j.file.value) (fit_parts _ (rc_value j.file).fit) };

    fn count(&self) -> u8 {
        self.file.count
    }

    // A present mark is not below the count, or a clause has no literal that holds in any sheet within.
    fn dead(&self, part: PartSheet) -> bool {
        !within_count(part.present(), self.file.count)
            || !are_kept(&self.file.clauses, part.possible())
    }
}
