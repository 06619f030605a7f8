// Whether a sheet is lawful, and if not, why. Rules and sheet are two parameters: what is asked of, and what is asked.
ghost use Rattle.std.specs.Prelude.{◌≡◌, ◌<◌, map, MatchOption};
ghost use Rattle.sheets.specs.Sheets.{Subset};
ghost use Rattle.rulefile.specs.Model.{rule_of};
ghost use Rattle.judges.specs.Numbers.{number};
ghost use Rattle.judges.specs.Programs.{Satisfies};
ghost use Rattle.judges.specs.Verdicts.{FirstBroken, FirstMissing, Says};

use crate::closures::Reduct;
use crate::sums::is_satisfied;
use rulefile::Rule;
use sheets::{Mark, Sheet, WIDTH, has_mark};

// What is said of a sheet.
#[derive(Clone, Copy, Debug, PartialEq, Eq)]
pub enum Verdict {
    // All rules hold, and the closure is the sheet.
    Lawful,
    // The lowest number of a rule that does not hold.
    Broken(usize),
    // All rules hold, and this is the lowest mark of the sheet outside the closure.
    Ungrounded(Mark),
}

// Why a verdict is refused. No `Display`: programs print the number alone.
#[derive(Clone, Copy, Debug, PartialEq, Eq)]
pub enum Refusal {
    // The sheet has a mark not below the count.
    MarkRange = 21,
}

impl Refusal {
    // The number by which the refusal is known. One line in each crate that refuses: each promises the numbers of its own
    // cases.
    pub fn number(self) -> u8
        ensures { result ≡ number self }
    {
        self as u8
    }
}

// The lowest number of a rule that does not hold. Labelled loops, and no chain: this form is a rule of the project.
fn first_broken(rules: &[Rule], sheet: Sheet) -> Option<usize>
    ensures { MatchOption result (Satisfies sheet (map rule_of rules.now)) (FirstBroken (map rule_of rules.now) sheet) }
{
    'found: {
        'rules: for (number, rule) in rules.iter().enumerate() {
            'body: for constraint in rule.body.as_slice() {
                if !is_satisfied(constraint, sheet) {
                    continue 'rules;
                }
            }
            if !is_satisfied(&rule.head, sheet) {
                break 'found Some(number);
            }
        }
        None
    }
}

// The lowest mark of the sheet that the other lacks.
fn first_missing(sheet: Sheet, other: Sheet) -> Option<Mark>
    ensures { MatchOption result (Subset sheet other) (FirstMissing sheet other) }
{
    (0..WIDTH).find(|mark| has_mark(sheet, *mark) && !has_mark(other, *mark))
}

// What is said of the sheet by the rules.
pub(crate) fn rules_verdict(rules: &[Rule], sheet: Sheet) -> Verdict
    ensures { Says (map rule_of rules.now) sheet result }
{
    if let Some(number) = first_broken(rules, sheet) {
        return Verdict::Broken(number);
    }
    let reduct = Reduct { rules, sheet };
    match first_missing(sheet, reduct.closure()) {
        Some(mark) => Verdict::Ungrounded(mark),
        None => Verdict::Lawful,
    }
}
