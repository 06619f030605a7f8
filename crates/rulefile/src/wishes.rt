// Wishes.
ghost use Rattle.std.specs.Prelude.{◌≡◌, ◌≤◌, true, vec_len, vec_items};
ghost use Rattle.sheets.specs.LiteralSets.{MarksInWidth};
ghost use Rattle.rulefile.specs.Ranges.{is_weight, top_level, most_wish_literals};

use sheets::Literal;

// What the wishes of a group share.
#[derive(Clone, Copy, Debug, PartialEq, Eq)]
pub struct Key {
    level: u8,
    weight: i16,
    tag: u16,
}

// Costs `weight` at `level` where all its literals hold; a negative weight is a gain. Of wishes with a tag, those equal in
// level, weight and tag are a group, which costs once.
#[derive(Drop)]
pub struct Wish {
    pub level: u8,
    // A record of kind 7 has one.
    pub tag: Option<u16>,
    pub weight: i16,
    pub literals: Vec<Literal>,
    // The level is from 1 to `TOP_LEVEL`.
    ghost low: { 1 ≤ level },
    ghost high: { level ≤ top_level },
    // The weight is in its range.
    ghost weighed: { is_weight weight ≡ true },
    // A wish has 1 to `MOST_WISH_LITERALS` literals.
    ghost some: { 1 ≤ vec_len literals },
    ghost few: { vec_len literals ≤ most_wish_literals },
    // Each names a mark that there is.
    ghost marks: { MarksInWidth (vec_items literals) },
}

impl Wish {
    ghost use Rattle.std.specs.Prelude.{◌≡◌};
    ghost use Rattle.rulefile.specs.Model.{wish_of};
    ghost use Rattle.rulefile.specs.WeakConstraints.{key_of, has_key};

    // What it shares with its group, if it has a tag.
    pub(crate) fn key(&self) -> Option<Key>
        ensures { result ≡ key_of (wish_of self.now) }
    {
        Some(Key {
            level: self.level,
            weight: self.weight,
            tag: self.tag?,
        })
    }

    // It is in the group of the key.
    pub(crate) fn has_key(&self, key: Key) -> bool
        ensures { result ≡ has_key key (wish_of self.now) }
    {
        self.level == key.level && self.weight == key.weight && self.tag == Some(key.tag)
    }
}

// A wish as a record of kind 7 has it, so that each kind of record has a reader of its own.
#[derive(Drop)]
pub(crate) struct TaggedWish(pub(crate) Wish);
