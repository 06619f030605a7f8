// Theorems about costs.
ghost use Rattle.std.specs.Prelude.{◌≡◌, ◌↔◌, IsTrue};
ghost use Rattle.scales.specs.declared.cost.LevelCost.{LevelCost};
ghost use Rattle.scales.specs.Theorems.{GroupsStand};

use crate::cost::LevelCost;

// `==` of costs holds exactly where the costs are the same.
pub fn costs_stand()
    ensures { (a b : LevelCost) → IsTrue (⟦<LevelCost as PartialEq>⟧.eq a b) ↔ (a ≡ b) }
{}

// Wishes of a group count once, in whatever order and however often they come; one alone counts as if it had no tag; and where
// no wish has a tag, each counts by itself.
pub fn groups_stand()
    ensures { GroupsStand }
{}
