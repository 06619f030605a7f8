// What is said of a sheet: the verdict, the first clause that does not hold, and what it costs.
ghost use Rattle.std.specs.Prelude.{◌≡◌, true, IfOk, MatchOption};
ghost use Rattle.std.specs.Rc.{rc_value};
ghost use Rattle.rulefile.specs.Answers.{file_of};
ghost use Rattle.judges.specs.Verdicts.{Judged};
ghost use Rattle.judges.specs.Clauses.{kept, FirstBrokenClause};
ghost use Rattle.scales.specs.Levels.{levels_of};
ghost use Rattle.scales.specs.Distances.{distance_of};

use crate::text::RecordText;
use judges::{Refusal, Verdict, first_broken_clause, sheet_verdict};
use rulefile::RuleFile;
use scales::{Distance, LevelCost, Levels};
use sheets::{Sheet, WIDTH, has_mark};
use std::alloc::AllocError;
use std::fmt;
use std::fmt::Formatter;
use std::rc::Rc;

// What a file says of a sheet.
#[derive(Clone, Copy)]
pub struct SheetFacts {
    sheet: Sheet,
    // Refused where a mark of the sheet is not below the count.
    verdict: Result<Verdict, Refusal>,
    // The lowest number of a clause that does not hold; without one the sheet can be printed.
    broken_clause: Option<usize>,
    cost: LevelCost,
    distance: u32,
}

impl SheetFacts {
    pub fn new(file: &Rc<RuleFile>, sheet: Sheet) -> Result<SheetFacts, AllocError>
        ensures sheet { IfOk result (λ facts. facts.sheet ≡ sheet) }
        ensures verdict { IfOk result (λ facts. Judged (file_of (rc_value file.now)) sheet facts.verdict) }
        ensures clause { IfOk result (λ facts. MatchOption facts.broken_clause (kept (file_of (rc_value file.now)).clauses sheet ≡ true) (FirstBrokenClause (file_of (rc_value file.now)).clauses sheet)) }
        ensures cost { IfOk result (λ facts. facts.cost ≡ (levels_of (file_of (rc_value file.now)).wishes).cost sheet) }
        ensures distance { IfOk result (λ facts. facts.distance ≡ (distance_of (file_of (rc_value file.now)).house).cost sheet) }
    {
        let levels = Levels::new(file.clone()?);
        Ok(SheetFacts {
            sheet,
            verdict: sheet_verdict(file, sheet),
            broken_clause: first_broken_clause(&file.clauses, sheet),
            cost: levels.cost(sheet),
            distance: Distance::new(file.house).cost(sheet),
        })
    }
}

// Displays a verdict by the rules of a file.
#[derive(Clone, Copy)]
struct VerdictText<'a> {
    file: &'a RuleFile,
    verdict: Result<Verdict, Refusal>,
}

impl fmt::Display for VerdictText<'_> {
    fn fmt<W: fmt::Write>(&self, f: &mut Formatter<W>) -> fmt::Result {
        match self.verdict {
            Ok(Verdict::Lawful) => f.write_str("lawful"),
            Ok(Verdict::Broken(number)) => {
                f.write_str("broken by ")?;
                match self.file.rules.get(number) {
                    Some(rule) => write!(f, "{}", RecordText::Rule(number, rule)),
                    None => Ok(()),
                }
            }
            Ok(Verdict::Ungrounded(mark)) => write!(f, "ungrounded, nothing supports mark {mark}"),
            Err(why) => {
                let number = why.number();
                write!(f, "refused {number}")
            }
        }
    }
}

// Displays whether a sheet can be printed, and if not, the first clause of a file that does not hold.
#[derive(Clone, Copy)]
struct PrintableText<'a> {
    file: &'a RuleFile,
    broken_clause: Option<usize>,
}

impl fmt::Display for PrintableText<'_> {
    fn fmt<W: fmt::Write>(&self, f: &mut Formatter<W>) -> fmt::Result {
        let Some(number) = self.broken_clause else {
            return f.write_str("printable");
        };
        f.write_str("not printable by ")?;
        match self.file.clauses.get(number) {
            Some(clause) => write!(f, "{}", RecordText::Clause(clause)),
            None => Ok(()),
        }
    }
}

// Displays the marks of a sheet, its cost and its distance from the house sheet, in the words of a report.
#[derive(Clone, Copy)]
struct CostText(SheetFacts);

impl fmt::Display for CostText {
    fn fmt<W: fmt::Write>(&self, f: &mut Formatter<W>) -> fmt::Result {
        let facts = self.0;
        f.write_str("sheet")?;
        for mark in (0..WIDTH).filter(|mark| has_mark(facts.sheet, *mark)) {
            write!(f, " {mark}")?;
        }
        let cost = facts.cost;
        let distance = facts.distance;
        write!(f, " cost {cost} off {distance}")
    }
}

// Displays what is said of a sheet, a line for each.
#[derive(Clone, Copy)]
pub struct FactsText<'a> {
    pub file: &'a RuleFile,
    pub facts: SheetFacts,
    // Stands before the verdict, and before the line that says whether the sheet can be printed.
    pub name: &'static str,
}

impl fmt::Display for FactsText<'_> {
    fn fmt<W: fmt::Write>(&self, f: &mut Formatter<W>) -> fmt::Result {
        let file = self.file;
        let name = self.name;
        let verdict = VerdictText {
            file,
            verdict: self.facts.verdict,
        };
        let printable = PrintableText {
            file,
            broken_clause: self.facts.broken_clause,
        };
        let cost = CostText(self.facts);
        write!(f, "{name}{verdict}\n{name}{printable}\n{cost}\n")
    }
}
