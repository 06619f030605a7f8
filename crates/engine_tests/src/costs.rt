// The costs of sheets, by the scales and by sums of the program's own.
use crate::solver::{holds, is_in};
use rulefile::limits::TOP_LEVEL;
use rulefile::{RuleFile, Wish};
use scales::{Distance, LevelCost, Levels};
use sheets::{Sheet, WIDTH, first_marks};
use std::alloc::AllocError;
use std::rc::Rc;

pub fn wish_holds(wish: &Wish, sheet: Sheet) -> bool {
    wish.literals
        .iter()
        .all(|literal| holds(*literal, sheet, sheet))
}

// Both have a tag, and they are equal in level, weight and tag.
fn are_one_group(wish: &Wish, other: &Wish) -> bool {
    wish.tag.is_some()
        && wish.tag == other.tag
        && wish.level == other.level
        && wish.weight == other.weight
}

// Of the wishes before the place, one that holds is in the group of the wish.
pub fn counts_before(wishes: &[Wish], place: usize, wish: &Wish, sheet: Sheet) -> bool {
    wishes.iter().take(place).any(|other| are_one_group(other, wish) && wish_holds(other, sheet))
}

// What the sheet costs at the level: the weights of the wishes that hold, but of those of a group only that of the first.
pub fn sum_at(file: &RuleFile, level: u8, sheet: Sheet) -> i64 {
    let wishes = file.wishes.as_slice();
    wishes
        .iter()
        .enumerate()
        .filter(|(place, wish)| {
            wish.level == level
                && wish_holds(wish, sheet)
                && !counts_before(wishes, *place, wish, sheet)
        })
        // No `sum`, of signed numbers: no proof is found that it stays in its bounds.
        .fold(0i64, |sum, (_, wish)| {
            sum.wrapping_add(i64::from(wish.weight))
        })
}

fn same_levels(file: &RuleFile, cost: LevelCost, sheet: Sheet) -> bool {
    (1..=TOP_LEVEL).all(|level| i64::from(cost.at(level)) == sum_at(file, level, sheet))
}

// At the greatest level at which their sums differ, that of the one sheet is less than that of the other.
fn is_cheaper(file: &RuleFile, sheet: Sheet, other: Sheet) -> bool {
    (1..=TOP_LEVEL)
        .rev()
        .map(|level| (sum_at(file, level, sheet), sum_at(file, level, other)))
        .find(|(sum, of_other)| sum != of_other)
        .is_some_and(|(sum, of_other)| sum < of_other)
}

// In how many marks the sheets differ.
pub fn marks_apart(sheet: Sheet, other: Sheet) -> usize {
    (0..WIDTH)
        .filter(|mark| is_in(sheet, *mark) != is_in(other, *mark))
        .count()
}

// On how many sheets of marks below the count the costs differ, or how they compare with that of the house sheet.
pub fn try_costs(file: &Rc<RuleFile>) -> Result<u64, AllocError> {
    let levels = Levels::new(file.clone()?);
    let distance = Distance::new(file.house);
    let differ = (0..=first_marks(file.count))
        .filter(|sheet| {
            !same_levels(file, levels.cost(*sheet), *sheet)
                || distance.cost(*sheet) as usize != marks_apart(*sheet, file.house)
                || levels.dominates(*sheet, file.house) != is_cheaper(file, *sheet, file.house)
        })
        // No `count`, which asks that there are fewer than 2^64 sheets: of 64 marks there are as many.
        .fold(0u64, |differ, _| differ.wrapping_add(1));
    Ok(differ)
}
