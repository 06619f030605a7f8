// Weight constraints.
ghost use Rattle.std.specs.Prelude.{◌≡◌, ◌≤◌, vec_len, vec_items, Some};
ghost use Rattle.rulefile.specs.declared.uniform.Uniform.{Uniform};
ghost use Rattle.rulefile.specs.Ranges.{most_elements};
ghost use Rattle.rulefile.specs.Uniform.{AreUniform};

use crate::uniform::Uniform;
use sheets::Literal;

// A literal with the weight that counts where it holds.
#[derive(Clone, Copy, Debug, PartialEq, Eq)]
pub struct Element {
    pub literal: Literal,
    pub weight: u16,
}

// Holds where the weights of the elements that hold add up to `low` at least and to `high` at most.
#[derive(Drop)]
pub struct Constraint {
    // The low bound.
    pub low: u32,
    // The high bound, if there is one.
    pub high: Option<u32>,
    pub elements: Vec<Element>,
    // The elements again, where there are some and they weigh the same.
    pub(crate) uniform: Option<Uniform>,
    // A constraint has at most `MOST_ELEMENTS` elements.
    ghost few: { vec_len elements ≤ most_elements },
    // What `uniform` has is what `elements` has.
    ghost alike: { (u : Uniform) → uniform ≡ Some u → AreUniform (vec_items elements) u },
}

impl Constraint {
    // The elements, where there are some, they weigh the same and none stands twice.
    pub fn uniform(&self) -> Option<Uniform>
        ensures { result ≡ self.now.uniform }
    {
        self.uniform
    }
}
