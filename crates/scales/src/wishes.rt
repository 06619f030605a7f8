// What weak constraints cost at least within a part-sheet.
ghost use Rattle.std.specs.Prelude.{◌≡◌, ◌+◌, ◌≤◌, ℕ, List, length};
ghost use Rattle.std.specs.List.{AllZip};
ghost use Rattle.rulefile.specs.Ranges.{most_of_kind};
ghost use Rattle.rulefile.specs.Answers.{file_of};
ghost use Rattle.rulefile.specs.WeakConstraints.{WeakModel, IsGroup};
ghost use Rattle.scales.specs.Wishes.{weak_floor, level_floor, top, down_from, Bounded, AddsUp};

use crate::cost::PLACES;
use rulefile::limits::TOP_LEVEL;
use rulefile::{Group, RuleFile, WeakConstraint};
use sheets::PartSheet;

// What the weak constraint costs at least in a sheet within the part-sheet.
fn weak_floor<C: WeakConstraint>(constraint: &C, part: PartSheet) -> i16
    ensures { (m : WeakModel) → C.is_model constraint.now m → result ≡ weak_floor part.present part.absent m }
{
    if constraint.is_one_held(part.sure()) {
        constraint.weight()
    } else if constraint.weight() < 0 {
        // A product, so that no jump depends on a test whose answer is hard to foretell.
        let times = i16::from(constraint.is_one_held(part.possible()));
        times * constraint.weight()
    } else {
        0
    }
}

// The floors of the weak constraints are added to the sums of the levels, from the top level down. A `for`: one pass adds to all
// sums.
fn add_floors<C: WeakConstraint>(sums: &mut [i32; PLACES], constraints: &[C], part: PartSheet)
    requires few { length constraints.now ≤ most_of_kind }
    requires room { Bounded most_of_kind sums.old }
    ensures added { (ms : List WeakModel) → AllZip C.is_model constraints.now ms → AddsUp part.present part.absent ms sums.old sums.new }
    ensures bounded { (k : ℕ) → Bounded k sums.old → Bounded (k + length constraints.now) sums.new }
{
    for constraint in constraints {
        let place = usize::from(TOP_LEVEL - constraint.level());
        sums[place] += i32::from(weak_floor(constraint, part));
    }
}

// The floors of groups. The call is marked as a rare one, so that a step without groups keeps its registers.
#[cold]
#[inline(never)]
fn add_groups(sums: &mut [i32; PLACES], groups: &[Group], part: PartSheet)
    requires few { length groups.now ≤ most_of_kind }
    requires room { Bounded most_of_kind sums.old }
    ensures { (ms : List WeakModel) → AllZip IsGroup groups.now ms → AddsUp part.present part.absent ms sums.old sums.new }
{
    add_floors(sums, groups, part);
}

// The floors of groups, if there are any.
fn add_some_groups(sums: &mut [i32; PLACES], groups: &[Group], part: PartSheet)
    requires few { length groups.now ≤ most_of_kind }
    requires room { Bounded most_of_kind sums.old }
    ensures { (ms : List WeakModel) → AllZip IsGroup groups.now ms → AddsUp part.present part.absent ms sums.old sums.new }
{
    if !groups.is_empty() {
        add_groups(sums, groups, part);
    }
}

// The floors of the weak constraints of a file, added up level by level from the top level down.
pub(crate) fn level_floors(file: &RuleFile, part: PartSheet) -> [i32; PLACES]
    ensures { result ≡ down_from top (level_floor part.present part.absent (file_of file.now).wishes) }
{
    let mut sums = [0i32; PLACES];
    add_floors(&mut sums, file.singles.as_slice(), part);
    add_some_groups(&mut sums, file.groups.as_slice(), part);
    sums
}
