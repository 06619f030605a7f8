// What a sheet costs: the wishes of a file, level by level, and the distance from the house sheet.
#![tactic(auto)]

mod cost;
mod distance;
mod levels;
mod theorems;
mod wishes;

pub use cost::LevelCost;
pub use distance::Distance;
pub use levels::Levels;
pub use theorems::{costs_stand, groups_stand};
