// A rule file, read.
ghost use Rattle.std.specs.Prelude.{◌≡◌, true, map};
ghost use Rattle.rulefile.specs.Model.{model_of, wish_of};
ghost use Rattle.std.specs.List.{AllZip};
ghost use Rattle.rulefile.specs.WeakConstraints.{IsSingle, IsGroup, singles_of, larger_of};
ghost use Rattle.rulefile.specs.Unique.{singles_prop, groups_prop};
ghost use Rattle.rulefile.specs.Limits.{is_fit};

use crate::records::{Act, Clause, Kind, Rule};
use crate::weak_constraints::{Group, Single};
use crate::wishes::Wish;
use sheets::Sheet;

// What a file holds. The records stand in four lists and not in one of all kinds, since a judge asks for one of them; beside
// them are the weak constraints, which a scale goes through. What nobody compares or prints derives nothing for it, here and
// in the lists, since that would have to be proved too.
#[derive(Drop)]
pub struct RuleFile {
    // How many marks there are.
    pub count: u8,
    // The sheet from which `Distance` counts.
    pub house: Sheet,
    // In file order, as the other lists; a rule's number is its place here.
    pub rules: Vec<Rule>,
    // The printer's list.
    pub clauses: Vec<Clause>,
    // Those with and those without a tag.
    pub wishes: Vec<Wish>,
    // The weak constraints that the wishes are: those with one member, and those with more.
    pub singles: Vec<Single>,
    pub groups: Vec<Group>,
    // The calls with which an order begins.
    pub acts: Vec<Act>,
    // The kinds of all records after the head.
    pub kinds: Vec<Kind>,
    // The limits of a file.
    ghost fit: { is_fit (model_of count house rules.items clauses.items wishes.items acts.items kinds.items) ≡ true },
    // The weak constraints are those of the wishes.
    ghost ones: { AllZip IsSingle singles.items (singles_of (map wish_of wishes.items)) } by { singles_prop singles.items (singles_of (map wish_of wishes.items)) },
    ghost larger: { AllZip IsGroup groups.items (larger_of (map wish_of wishes.items)) } by { groups_prop groups.items (larger_of (map wish_of wishes.items)) },
}
