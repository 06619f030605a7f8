// What a sheet costs at each level.
ghost use Rattle.std.specs.Prelude.{◌≡◌, Some};
ghost use Rattle.scales.specs.Wishes.{cost_at};
ghost use Rattle.scales.specs.Words.{cost_words};

use rulefile::limits::TOP_LEVEL;
use std::fmt;

// How many levels there are, as the length of an array.
pub(crate) const PLACES: usize = TOP_LEVEL as usize;

// The costs at each level, compared from the top level down.
#[derive(Clone, Copy, Debug, PartialEq, Eq, PartialOrd, Ord)]
pub struct LevelCost {
    // From the top level at place 0 down to level 1.
    pub(crate) levels: [i32; PLACES],
}

impl LevelCost {
    // The cost at the level; 0 where there is no such level.
    pub fn at(self, level: u8) -> i32
        ensures { result ≡ cost_at self.levels level }
    {
        match level {
            1..=TOP_LEVEL => self.levels[usize::from(TOP_LEVEL - level)],
            _ => 0,
        }
    }
}

impl fmt::Display for LevelCost {
    ghost output = { λ cost. Some (cost_words cost.levels) };

    fn fmt<W: fmt::Write>(&self, f: &mut fmt::Formatter<W>) -> fmt::Result {
        if let [first, rest @ ..] = self.levels.as_slice() {
            write!(f, "{first}")?;
            for sum in rest {
                write!(f, " {sum}")?;
            }
        }
        Ok(())
    }
}
