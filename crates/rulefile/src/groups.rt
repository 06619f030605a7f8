// The weak constraints of a file: its wishes without a tag, and the groups of the others. They are found once, when the file is
// read, so that no step of a search looks for an equal wish.
ghost use Rattle.std.specs.Prelude.{◌+◌, ◌<◌, [], ◌∷◌, ◌++◌, List, IfOk, length, map, vec_items};
ghost use Rattle.std.specs.List.{filter, AllZip};
ghost use Rattle.rulefile.specs.Model.{wish_of};
ghost use Rattle.rulefile.specs.WeakConstraints.{WeakModel, IsSingle, IsGroup, is_single, is_larger, untagged_of, first_groups, singles_of, larger_of};

use crate::weak_constraints::{Group, Single};
use crate::wishes::Wish;
use std::alloc::{AllocError, Global};

// The wishes without a tag, each by itself. A `for` that pushes, since it ends where memory fails.
fn untagged(heap: Global, wishes: &[Wish]) -> Result<Vec<Single>, AllocError>
    ensures { IfOk result (λ all. AllZip IsSingle (vec_items all) (untagged_of (map wish_of wishes.now))) }
{
    let mut all = Vec::new(heap);
    for wish in wishes {
        if wish.tag.is_none() {
            all.push(Single::of(wish))?;
        }
    }
    Ok(all)
}

// Adds a group to the singles, if it has one member, and to the groups if it has more.
fn add(singles: &mut Vec<Single>, groups: &mut Vec<Group>, group: Group) -> Result<(), AllocError>
    ensures singles { IfOk result (λ _. (ms : List WeakModel) (m : WeakModel) → IsGroup group m → AllZip IsSingle (vec_items singles.old) ms → AllZip IsSingle (vec_items singles.new) (ms ++ filter is_single (m ∷ []))) }
    ensures groups { IfOk result (λ _. (ms : List WeakModel) (m : WeakModel) → IsGroup group m → AllZip IsGroup (vec_items groups.old) ms → AllZip IsGroup (vec_items groups.new) (ms ++ filter is_larger (m ∷ []))) }
{
    match group.single() {
        Some(single) => singles.push(single)?,
        None => groups.push(group)?,
    }
    Ok(())
}

// Adds the group of the wish at `i`, if it has a tag and no wish before it is in this group.
fn add_group(
    heap: Global,
    singles: &mut Vec<Single>,
    groups: &mut Vec<Group>,
    wishes: &[Wish],
    i: usize,
) -> Result<(), AllocError>
    requires { i < length wishes.now }
    ensures singles { IfOk result (λ _. (ms : List WeakModel) → AllZip IsSingle (vec_items singles.old) (ms ++ filter is_single (first_groups i (map wish_of wishes.now))) → AllZip IsSingle (vec_items singles.new) (ms ++ filter is_single (first_groups (i + 1) (map wish_of wishes.now)))) }
    ensures groups { IfOk result (λ _. AllZip IsGroup (vec_items groups.old) (filter is_larger (first_groups i (map wish_of wishes.now))) → AllZip IsGroup (vec_items groups.new) (filter is_larger (first_groups (i + 1) (map wish_of wishes.now)))) }
{
    let (before, rest) = wishes.split_at(i);
    let [wish, later @ ..] = rest else {
        return Ok(());
    };
    let Some(key) = wish.key() else {
        return Ok(());
    };
    if !before.iter().any(|other| other.has_key(key)) {
        add(singles, groups, Group::of(heap, wish, key, later)?)?;
    }
    Ok(())
}

// The weak constraints of the wishes: those with one member, and those with more.
pub fn weak_constraints(
    heap: Global,
    wishes: &[Wish],
) -> Result<(Vec<Single>, Vec<Group>), AllocError>
    ensures singles { IfOk result (λ all. AllZip IsSingle (vec_items all.0) (singles_of (map wish_of wishes.now))) }
    ensures groups { IfOk result (λ all. AllZip IsGroup (vec_items all.1) (larger_of (map wish_of wishes.now))) }
{
    let mut singles = untagged(heap, wishes)?;
    let mut groups = Vec::new(heap);
    for i in 0..wishes.len() {
        add_group(heap, &mut singles, &mut groups, wishes, i)?;
    }
    Ok((singles, groups))
}
