// A second solver, by other means than the engine's: it goes through all sets of marks and takes what the sets that
// satisfy the reduct have in common. Rules, sets and sheets are parameters, as in the definitions that it follows.
ghost use Rattle.std.specs.Prelude.{◌≤◌, length};
ghost use Rattle.rulefile.specs.Ranges.{most_elements};

use judges::Verdict;
use rulefile::{Constraint, Element, Rule, RuleFile};
use sheets::{Literal, Mark, Sheet, first_marks};

// The mark is in the sheet, by division.
pub fn is_in(sheet: Sheet, mark: Mark) -> bool {
    (0..mark).fold(sheet, |rest, _| rest / 2) % 2 == 1
}

// The mark is in the one sheet, or for "not" is missing from the other.
pub fn holds(literal: Literal, plain: Sheet, negated: Sheet) -> bool {
    if literal.negated {
        !is_in(negated, literal.mark)
    } else {
        is_in(plain, literal.mark)
    }
}

// The weights of the plain elements in one sheet and of the "not" elements that hold in the other.
fn weight_of(elements: &[Element], plain: Sheet, negated: Sheet) -> u64
    requires { length elements.now ≤ most_elements }
{
    elements
        .iter()
        .filter(|element| holds(element.literal, plain, negated))
        .map(|element| u64::from(element.weight))
        .sum()
}

fn weight(constraint: &Constraint, plain: Sheet, negated: Sheet) -> u64 {
    weight_of(&constraint.elements, plain, negated)
}

fn is_above(constraint: &Constraint, sheet: Sheet) -> bool {
    constraint
        .high
        .is_some_and(|high| weight(constraint, sheet, sheet) > u64::from(high))
}

fn is_met(constraint: &Constraint, sheet: Sheet) -> bool {
    weight(constraint, sheet, sheet) >= u64::from(constraint.low) && !is_above(constraint, sheet)
}

fn rule_holds(rule: &Rule, sheet: Sheet) -> bool {
    is_met(&rule.head, sheet)
        || rule
            .body
            .iter()
            .any(|constraint| !is_met(constraint, sheet))
}

// Some body constraint of the rule asks nothing of the set, as the rule is skipped or the set does not reach it.
fn is_idle(rule: &Rule, set: Sheet, sheet: Sheet) -> bool {
    rule.body.iter().any(|constraint| {
        is_above(constraint, sheet) || weight(constraint, set, sheet) < u64::from(constraint.low)
    })
}

// The set has each plain head mark of the rule that the sheet has.
fn has_heads(rule: &Rule, set: Sheet, sheet: Sheet) -> bool {
    rule.head
        .elements
        .iter()
        .map(|element| element.literal)
        .filter(|literal| !literal.negated && is_in(sheet, literal.mark))
        .all(|literal| is_in(set, literal.mark))
}

// The set satisfies the reduct of the rules for the sheet.
fn satisfies_reduct(rules: &[Rule], set: Sheet, sheet: Sheet) -> bool {
    rules.iter().all(|rule| is_idle(rule, set, sheet) || has_heads(rule, set, sheet))
}

// The marks that all sets of marks below the count within the sheet have in common which satisfy its reduct.
fn common(rules: &[Rule], count: u8, sheet: Sheet) -> Sheet {
    (0..=first_marks(count))
        .filter(|set| set & !sheet == 0 && satisfies_reduct(rules, *set, sheet))
        .fold(sheet, |common, set| common & set)
}

// The verdict on a sheet of marks below the count.
pub fn solve(file: &RuleFile, sheet: Sheet) -> Verdict {
    let rules = file.rules.as_slice();
    if let Some(number) = rules.iter().position(|rule| !rule_holds(rule, sheet)) {
        return Verdict::Broken(number);
    }
    let ungrounded = sheet & !common(rules, file.count, sheet);
    (0..file.count)
        .find(|mark| is_in(ungrounded, *mark))
        .map_or(Verdict::Lawful, Verdict::Ungrounded)
}
