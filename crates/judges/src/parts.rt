// What a part-sheet settles of the rules. Constraint and part-sheet are two parameters: nothing else needs the pair.
ghost use Rattle.std.specs.Prelude.{◌≡◌, map};
ghost use Rattle.rulefile.specs.Model.{constraint_of, rule_of};
ghost use Rattle.std.specs.List.{list_all, list_any};
ghost use Rattle.judges.specs.Books.{least, greatest, sure, hopeless, dead_rule};

use crate::sums::{is_at_most, sum};
use rulefile::{Constraint, Rule};
use sheets::PartSheet;

// The weights of the elements that hold in every sheet within.
fn least_sum(constraint: &Constraint, part: PartSheet) -> u32
    ensures { result ≡ least part.present part.absent (constraint_of constraint.now) }
{
    sum(constraint, part.sure())
}

// The weights of the elements that hold in some sheet within.
fn greatest_sum(constraint: &Constraint, part: PartSheet) -> u32
    ensures { result ≡ greatest part.present part.absent (constraint_of constraint.now) }
{
    sum(constraint, part.possible())
}

// The constraint holds in every sheet within, by its sums.
fn is_sure(constraint: &Constraint, part: PartSheet) -> bool
    ensures { result ≡ sure part.present part.absent (constraint_of constraint.now) }
{
    constraint.low <= least_sum(constraint, part)
        && is_at_most(greatest_sum(constraint, part), constraint.high)
}

// The constraint holds in no sheet within, by its sums.
fn is_hopeless(constraint: &Constraint, part: PartSheet) -> bool
    ensures { result ≡ hopeless part.present part.absent (constraint_of constraint.now) }
{
    greatest_sum(constraint, part) < constraint.low
        || !is_at_most(least_sum(constraint, part), constraint.high)
}

// Each constraint of the body holds in every sheet within, by its sums.
fn are_sure(body: &[Constraint], part: PartSheet) -> bool
    ensures { result ≡ list_all (sure part.present part.absent) (map constraint_of body.now) }
{
    body.iter().all(|constraint| is_sure(constraint, part))
}

// The rule fails in every sheet within, by its sums.
fn is_dead_rule(rule: &Rule, part: PartSheet) -> bool
    ensures { result ≡ dead_rule part.present part.absent (rule_of rule.now) }
{
    is_hopeless(&rule.head, part) && are_sure(rule.body.as_slice(), part)
}

// A rule fails in every sheet within, by its sums.
pub(crate) fn has_dead_rule(rules: &[Rule], part: PartSheet) -> bool
    ensures { result ≡ list_any (dead_rule part.present part.absent) (map rule_of rules.now) }
{
    rules.iter().any(|rule| is_dead_rule(rule, part))
}
