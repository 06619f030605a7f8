// Weak constraints: wishes by themselves, and groups of wishes.
ghost use Rattle.std.specs.Prelude.{◌≤◌};
ghost use Rattle.rulefile.specs.Ranges.{top_level};

use crate::wishes::{Key, Wish};
use sheets::{Interpretation, LiteralSet};
use std::alloc::{AllocError, Global};

// Costs its weight at its level where all literals of at least one of its members hold. It has two types: most have one
// member, and take less room and fewer tests.
pub trait WeakConstraint {
    ghost use Rattle.std.specs.Prelude.{◌≡◌, ◌≤◌, ℤ};
    ghost use Rattle.std.specs.List.{list_all, list_any};
    ghost use Rattle.sheets.specs.Literals.{held};
    ghost use Rattle.rulefile.specs.Ranges.{top_level};
    ghost use Rattle.rulefile.specs.WeakConstraints.{WeakModel};

    // It is this weak constraint.
    ghost is_model: { Self → WeakModel → Type 0 };

    // From 1 to `TOP_LEVEL`.
    fn level(&self) -> u8
        ensures value { (m : WeakModel) → is_model self.now m → result ≡ m.level }
        ensures low { 1 ≤ result }
        ensures high { result ≤ top_level };

    // What it costs where it holds.
    fn weight(&self) -> i16
        ensures { (m : WeakModel) → is_model self.now m → result ≡ m.weight };

    // Of at least one of the members, each literal is held.
    fn is_one_held(&self, by: Interpretation) -> bool
        ensures { (m : WeakModel) → is_model self.now m → result ≡ list_any (list_all (held by)) m.members };
}

// With one member: a wish without a tag, or one that is a group of its own.
#[derive(Clone, Copy)]
pub struct Single {
    level: u8,
    weight: i16,
    literals: LiteralSet,
    // The level is from 1 to `TOP_LEVEL`.
    ghost low: { 1 ≤ level },
    ghost high: { level ≤ top_level },
}

impl Single {
    ghost use Rattle.rulefile.specs.Model.{wish_of};
    ghost use Rattle.rulefile.specs.WeakConstraints.{IsSingle, alone};

    // The wish by itself.
    pub(crate) fn of(wish: &Wish) -> Single
        ensures { IsSingle result (alone (wish_of wish.now)) }
    {
        Single {
            level: wish.level,
            weight: wish.weight,
            literals: LiteralSet::of(&wish.literals),
        }
    }
}

impl WeakConstraint for Single {
    ghost use Rattle.rulefile.specs.WeakConstraints.{IsSingle};

    ghost is_model = { IsSingle };

    fn level(&self) -> u8 {
        self.level
    }

    fn weight(&self) -> i16 {
        self.weight
    }

    fn is_one_held(&self, by: Interpretation) -> bool {
        self.literals.are_all_held(by)
    }
}

// A group of wishes: each of them is a member. A file has those of two members or more; one of one member becomes a `Single`.
#[derive(Drop)]
pub struct Group {
    level: u8,
    weight: i16,
    // The literals of its first member.
    first: LiteralSet,
    // Those of the other members.
    others: Vec<LiteralSet>,
    // The level is from 1 to `TOP_LEVEL`.
    ghost low: { 1 ≤ level },
    ghost high: { level ≤ top_level },
}

impl Group {
    ghost use Rattle.std.specs.Prelude.{◌≡◌, true, ◌∷◌, List, IfOk, MatchOption, map};
    ghost use Rattle.std.specs.List.{list_all, list_any, filter, AllZip};
    ghost use Rattle.sheets.specs.declared.literals.Literal.{Literal};
    ghost use Rattle.sheets.specs.Literals.{held};
    ghost use Rattle.rulefile.specs.Model.{WishModel, wish_of};
    ghost use Rattle.rulefile.specs.WeakConstraints.{WeakModel, IsSetOf, IsSingle, IsGroup, is_single, is_larger, has_key};

    // Of at least one set, each literal is held. A `for`, since a set says so of each list that it stands for, and of no one list.
    fn is_one_of(sets: &[LiteralSet], by: Interpretation) -> bool
        ensures { (lists : List (List Literal)) → AllZip IsSetOf sets.now lists → result ≡ list_any (list_all (held by)) lists }
    {
        for set in sets {
            if set.are_all_held(by) {
                return true;
            }
        }
        false
    }

    // The wish with those of `later` that have its key.
    pub(crate) fn of(
        heap: Global,
        wish: &Wish,
        key: Key,
        later: &[Wish],
    ) -> Result<Group, AllocError>
        ensures { IfOk result (λ g. IsGroup g (record { level = wish.now.level; weight = wish.now.weight; members = (wish_of wish.now).literals ∷ map (λ (w : WishModel). w.literals) (filter (has_key key) (map wish_of later.now)) })) }
    {
        let mut others = Vec::new(heap);
        for other in later {
            if other.has_key(key) {
                others.push(LiteralSet::of(&other.literals))?;
            }
        }
        Ok(Group {
            level: wish.level,
            weight: wish.weight,
            first: LiteralSet::of(&wish.literals),
            others,
        })
    }

    // The same as a single, if it has one member.
    pub(crate) fn single(&self) -> Option<Single>
        ensures { (m : WeakModel) → IsGroup self.now m → MatchOption result (is_larger m ≡ true) (λ s. (is_single m ≡ true) × IsSingle s m) }
    {
        if self.others.is_empty() {
            Some(Single {
                level: self.level,
                weight: self.weight,
                literals: self.first,
            })
        } else {
            None
        }
    }
}

impl WeakConstraint for Group {
    ghost use Rattle.rulefile.specs.WeakConstraints.{IsGroup};

    ghost is_model = { IsGroup };

    fn level(&self) -> u8 {
        self.level
    }

    fn weight(&self) -> i16 {
        self.weight
    }

    fn is_one_held(&self, by: Interpretation) -> bool {
        // No `||`: a jump on the first, whose answer is hard to foretell, takes longer than to ask the others.
        self.first.are_all_held(by) | Group::is_one_of(self.others.as_slice(), by)
    }
}
