// Files of wishes at the limits of weights and levels.
use crate::costs::try_costs;
use rulefile::limits::{MOST_OF_KIND, MOST_WEIGHT, TOP_LEVEL};
use rulefile::{RuleFile, read};
use scales::Levels;
use std::alloc::{AllocError, Global};
use std::fmt;
use std::fmt::Formatter;
use std::rc::Rc;

// A head with count 1 and an empty house sheet.
const HEAD: [u8; 15] = [11, 0, 0, 0, 1, 0, 1, 0, 0, 0, 0, 0, 0, 0, 0];

// Which tags the wishes of a file have.
#[derive(Clone, Copy)]
enum Tags {
    // None has a tag.
    Absent,
    // All have this tag.
    Same(u16),
    // Each has a tag of its own, from 0 up.
    Own,
}

// So many wishes of the weight at each level from `low` to `high`, if mark 0 is there.
#[derive(Clone, Copy)]
struct Wishes {
    tags: Tags,
    times: usize,
    weight: i16,
    low: u8,
    high: u8,
}

const EXTREMES: [Wishes; 11] = [
    Wishes {
        tags: Tags::Absent,
        times: 1,
        weight: MOST_WEIGHT,
        low: 1,
        high: TOP_LEVEL,
    },
    Wishes {
        tags: Tags::Absent,
        times: 1,
        weight: -MOST_WEIGHT,
        low: 1,
        high: TOP_LEVEL,
    },
    Wishes {
        tags: Tags::Absent,
        times: 2,
        weight: 7,
        low: 3,
        high: 3,
    },
    Wishes {
        tags: Tags::Absent,
        times: MOST_OF_KIND,
        weight: MOST_WEIGHT,
        low: TOP_LEVEL,
        high: TOP_LEVEL,
    },
    Wishes {
        tags: Tags::Absent,
        times: MOST_OF_KIND,
        weight: -MOST_WEIGHT,
        low: 1,
        high: 1,
    },
    Wishes {
        tags: Tags::Same(u16::MAX),
        times: 2,
        weight: 7,
        low: 3,
        high: 4,
    },
    Wishes {
        tags: Tags::Same(0),
        times: MOST_OF_KIND,
        weight: MOST_WEIGHT,
        low: TOP_LEVEL,
        high: TOP_LEVEL,
    },
    Wishes {
        tags: Tags::Same(0),
        times: MOST_OF_KIND,
        weight: -MOST_WEIGHT,
        low: 1,
        high: 1,
    },
    Wishes {
        tags: Tags::Own,
        times: MOST_OF_KIND,
        weight: MOST_WEIGHT,
        low: TOP_LEVEL,
        high: TOP_LEVEL,
    },
    Wishes {
        tags: Tags::Own,
        times: MOST_OF_KIND,
        weight: -MOST_WEIGHT,
        low: 1,
        high: 1,
    },
    Wishes {
        tags: Tags::Same(258),
        times: 32,
        weight: -MOST_WEIGHT,
        low: 1,
        high: TOP_LEVEL,
    },
];

impl fmt::Display for Tags {
    fn fmt<W: fmt::Write>(&self, f: &mut Formatter<W>) -> fmt::Result {
        match self {
            Tags::Absent => Ok(()),
            Tags::Same(tag) => write!(f, " with the tag {tag}"),
            Tags::Own => f.write_str(" with a tag each"),
        }
    }
}

impl fmt::Display for Wishes {
    fn fmt<W: fmt::Write>(&self, f: &mut Formatter<W>) -> fmt::Result {
        let Wishes {
            tags,
            times,
            weight,
            low,
            high,
        } = *self;
        write!(
            f,
            "{times} wishes{tags} of weight {weight} at levels {low} to {high}"
        )
    }
}

impl Wishes {
    // Adds one of the wishes, which has this place among those of its level.
    fn add_record(self, file: &mut Vec<u8>, level: u8, place: usize) -> Result<(), AllocError> {
        let [a, b] = self.weight.to_le_bytes();
        let [c, d] = match self.tags {
            Tags::Absent => {
                return file.extend_from_slice(&[7, 0, 0, 0, 4, 0, level, a, b, 1, 0]);
            }
            Tags::Same(tag) => tag.to_le_bytes(),
            Tags::Own => {
                let [c, d, ..] = place.to_le_bytes();
                [c, d]
            }
        };
        file.extend_from_slice(&[9, 0, 0, 0, 7, 0, level, c, d, a, b, 1, 0])
    }

    // Adds the wishes of the level.
    fn add_level(self, file: &mut Vec<u8>, level: u8) -> Result<(), AllocError> {
        for place in 0..self.times {
            self.add_record(file, level, place)?;
        }
        Ok(())
    }

    // The file of the wishes.
    fn file(self, heap: Global) -> anyhow::Result<RuleFile> {
        let mut bytes = Vec::from_slice(heap, &HEAD)?;
        for level in self.low..=self.high {
            self.add_level(&mut bytes, level)?;
        }
        Ok(read(heap, bytes.as_slice())?)
    }

    // What the sheet {0} costs, from the top level down.
    fn print_costs(self, rt: &HostRuntime) -> anyhow::Result<()> {
        let heap = rt.alloc();
        let file = Rc::new(heap, self.file(heap)?)?;
        let differ = try_costs(&file)?;
        let cost = Levels::new(file).cost(1);
        println!(rt; "{self}: {cost}, {differ} differ")?;
        Ok(())
    }
}

pub fn run_extremes(rt: &HostRuntime) -> anyhow::Result<()> {
    for wishes in EXTREMES {
        wishes.print_costs(rt)?;
    }
    Ok(())
}
