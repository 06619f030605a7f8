// Small rule files by chance, the same at every run. Numbers that are drawn are matched: they are chances, and each arm
// draws on.
use rand_core::utils::NextWord;
use rand_pcg::Pcg32;
use rulefile::limits::{MOST_WEIGHT, NO_HIGH, NOT, TOP_LEVEL};
use rulefile::{Element, Kind};
use sheets::{Literal, Mark, Sheet, first_marks};
use std::alloc::{AllocError, Global};

// How many weights a wish can have.
const WEIGHTS: u32 = 2 * MOST_WEIGHT as u32 + 1;

// Adds a record of the kind, with its length.
fn add_record(file: &mut Vec<u8>, kind: Kind, body: &[u8]) -> Result<(), AllocError> {
    let [a, b, c, d, ..] = body.len().wrapping_add(2).to_le_bytes();
    file.extend_from_slice(&[a, b, c, d])?;
    file.extend_from_slice(&kind.number().to_le_bytes())?;
    file.extend_from_slice(body)
}

// The byte of a literal in a file.
fn byte_of(literal: Literal) -> u8 {
    if literal.negated {
        literal.mark | NOT
    } else {
        literal.mark
    }
}

// What the wishes of a group have in common.
#[derive(Clone, Copy)]
struct Group {
    level: u8,
    tag: u16,
    weight: i16,
}

// Draws the parts of a file whose marks are below the count.
#[derive(Drop)]
pub struct Draw {
    heap: Global,
    random: Pcg32,
    count: u8,
    // About half of its records are wishes with a tag; else none is.
    has_tags: bool,
}

impl Draw {
    // Begins with a count from 1 to 6, more often a large one.
    pub fn new(heap: Global, seed: u64, has_tags: bool) -> Draw {
        let mut draw = Draw {
            heap,
            random: Pcg32::new(seed, 0),
            count: 1,
            has_tags,
        };
        let larger = draw.small(6).max(draw.small(6));
        draw.count = larger.saturating_add(1);
        draw
    }

    // A number below the limit; 0 where that is 0.
    fn below(&mut self, limit: u32) -> u32 {
        self.random.next_word().checked_rem(limit).unwrap_or(0)
    }

    // The same of a small limit.
    fn small(&mut self, limit: u8) -> u8 {
        let [low, ..] = self.below(u32::from(limit)).to_le_bytes();
        low
    }

    fn mark(&mut self) -> Mark {
        self.small(self.count)
    }

    fn sheet(&mut self) -> Sheet {
        u64::from(self.below(u32::MAX)) & first_marks(self.count)
    }

    // Of a hundred, so many are a "not".
    fn literal(&mut self, nots: u32) -> Literal {
        Literal {
            mark: self.mark(),
            negated: self.below(100) < nots,
        }
    }

    // Most weights are small, so that bounds matter.
    fn weight(&mut self) -> u16 {
        match self.below(10) {
            0..=4 => 1,
            5 | 6 => 2,
            7 => 3,
            8 => 0,
            _ => u16::MAX,
        }
    }

    // Marks may come twice.
    fn elements(&mut self, nots: u32) -> Result<Vec<Element>, AllocError> {
        let mut elements = Vec::new(self.heap);
        for _ in 0..self.below(5) {
            elements.push(Element {
                literal: self.literal(nots),
                weight: self.weight(),
            })?;
        }
        Ok(elements)
    }

    // Adds the bounds and the elements of a constraint.
    fn add_constraint(
        &mut self,
        body: &mut Vec<u8>,
        bounds: (u32, u32),
        elements: &[Element],
    ) -> Result<(), AllocError> {
        body.extend_from_slice(&bounds.0.to_le_bytes())?;
        body.extend_from_slice(&bounds.1.to_le_bytes())?;
        let [count, ..] = elements.len().to_le_bytes();
        body.push(count)?;
        for element in elements {
            body.push(byte_of(element.literal))?;
            body.extend_from_slice(&element.weight.to_le_bytes())?;
        }
        Ok(())
    }

    // Low bounds are small, and there is often no high one.
    fn bounds(&mut self) -> (u32, u32) {
        let low = self.below(4);
        match self.below(6) {
            0 => (low, low),
            1 => (low, low.wrapping_add(1)),
            2 => (low, self.below(5)),
            _ => (low, NO_HIGH),
        }
    }

    fn add_body_constraint(&mut self, body: &mut Vec<u8>) -> Result<(), AllocError> {
        let bounds = self.bounds();
        let elements = self.elements(40)?;
        self.add_constraint(body, bounds, elements.as_slice())
    }

    // A head that wants one mark, or leaves its marks open, or can't hold, or is any constraint.
    fn add_head(&mut self, body: &mut Vec<u8>) -> Result<(), AllocError> {
        let elements = self.elements(10)?;
        match self.below(8) {
            0..=2 => {
                let mark = Element {
                    literal: self.literal(0),
                    weight: 1,
                };
                self.add_constraint(body, (1, NO_HIGH), &[mark])
            }
            3 | 4 => self.add_constraint(body, (0, NO_HIGH), elements.as_slice()),
            5 => self.add_constraint(body, (1, NO_HIGH), &[]),
            _ => {
                let bounds = self.bounds();
                self.add_constraint(body, bounds, elements.as_slice())
            }
        }
    }

    fn add_rule(&mut self, file: &mut Vec<u8>) -> Result<(), AllocError> {
        let n = self.small(4);
        let mut body = vec![in self.heap; n]?;
        self.add_head(&mut body)?;
        for _ in 0..n {
            self.add_body_constraint(&mut body)?;
        }
        add_record(file, Kind::Rule, body.as_slice())
    }

    // A rule by which each mark may be there or not.
    fn add_free_rule(&mut self, file: &mut Vec<u8>) -> Result<(), AllocError> {
        let marks: Vec<Element> = (0..self.count)
            .map(|mark| Element {
                literal: Literal {
                    mark,
                    negated: false,
                },
                weight: 1,
            })
            .collect(self.heap)?;
        let mut body = vec![in self.heap; 0]?;
        self.add_constraint(&mut body, (0, NO_HIGH), marks.as_slice())?;
        add_record(file, Kind::Rule, body.as_slice())
    }

    // A rule by which one mark, or what is drawn beside it, supports the next; the last supports the first.
    fn add_support(&mut self, file: &mut Vec<u8>, mark: Mark) -> Result<(), AllocError> {
        let plain = |mark| Element {
            literal: Literal {
                mark,
                negated: false,
            },
            weight: 1,
        };
        let next = mark.wrapping_add(1).checked_rem(self.count).unwrap_or(0);
        let mut elements = self.elements(30)?;
        elements.push(plain(mark))?;
        let mut body = vec![in self.heap; 1]?;
        self.add_constraint(&mut body, (1, NO_HIGH), &[plain(next)])?;
        self.add_constraint(&mut body, (1, NO_HIGH), elements.as_slice())?;
        add_record(file, Kind::Rule, body.as_slice())
    }

    fn add_positive_loop(&mut self, file: &mut Vec<u8>) -> Result<(), AllocError> {
        for mark in 0..self.count {
            self.add_support(file, mark)?;
        }
        Ok(())
    }

    fn add_literals(&mut self, body: &mut Vec<u8>, n: u8) -> Result<(), AllocError> {
        body.push(n)?;
        for _ in 0..n {
            body.push(byte_of(self.literal(40)))?;
        }
        Ok(())
    }

    fn add_clause(&mut self, file: &mut Vec<u8>) -> Result<(), AllocError> {
        let mut body = Vec::new(self.heap);
        let n = self.small(40).min(3);
        self.add_literals(&mut body, n)?;
        add_record(file, Kind::Clause, body.as_slice())
    }

    // Small weights, so that there are sheets of one cost, and now and then large ones.
    fn add_wish(&mut self, file: &mut Vec<u8>) -> Result<(), AllocError> {
        let level = self.small(TOP_LEVEL).saturating_add(1);
        let weight = if self.below(3) == 0 {
            let [a, b, ..] = self.below(WEIGHTS).to_le_bytes();
            i16::from_le_bytes([a, b]).wrapping_sub(MOST_WEIGHT)
        } else {
            i16::from(self.small(7)).wrapping_sub(3)
        };
        let mut body = vec![in self.heap; level]?;
        body.extend_from_slice(&weight.to_le_bytes())?;
        let n = self.small(3).wrapping_add(1);
        self.add_literals(&mut body, n)?;
        add_record(file, Kind::Wish, body.as_slice())
    }

    // There are few levels, tags and weights, so that many wishes share all three. Of two tags the one has the bytes of the
    // other in the other order.
    fn group(&mut self) -> Group {
        let level = if self.below(3) == 0 { TOP_LEVEL } else { 2 };
        let tag = match self.below(5) {
            0 => u16::MAX,
            1 => 0x0201,
            _ => 0x0102,
        };
        let weight = match self.below(6) {
            0 => -MOST_WEIGHT,
            1 => 1,
            2 | 3 => 2,
            _ => -2,
        };
        Group { level, tag, weight }
    }

    // The literals of a wish with a tag. Of six wishes one has a mark and its "not".
    fn add_tagged_literals(&mut self, body: &mut Vec<u8>) -> Result<(), AllocError> {
        if self.below(6) == 0 {
            let mark = self.mark();
            body.extend_from_slice(&[2, mark, mark | NOT])
        } else {
            let n = self.small(3).wrapping_add(1);
            self.add_literals(body, n)
        }
    }

    fn add_tagged_wish(&mut self, file: &mut Vec<u8>) -> Result<(), AllocError> {
        let group = self.group();
        let mut body = vec![in self.heap; group.level]?;
        body.extend_from_slice(&group.tag.to_le_bytes())?;
        body.extend_from_slice(&group.weight.to_le_bytes())?;
        self.add_tagged_literals(&mut body)?;
        add_record(file, Kind::TaggedWish, body.as_slice())
    }

    // Now and then a mark that is not below the count.
    fn act_mark(&mut self) -> Mark {
        if self.below(10) == 0 {
            self.small(70).saturating_add(self.count)
        } else {
            self.mark()
        }
    }

    // Now and then a sheet with such a mark.
    fn act_sheet(&mut self) -> Sheet {
        let sheet = self.sheet();
        if self.below(10) == 0 {
            sheet | 1 << self.count.min(63)
        } else {
            sheet
        }
    }

    fn add_act(&mut self, file: &mut Vec<u8>) -> Result<(), AllocError> {
        match self.below(8) {
            0 => add_record(file, Kind::Act, &[1, self.act_mark()]),
            1 => add_record(file, Kind::Act, &[2, self.act_mark()]),
            2 => add_record(file, Kind::Act, &[4]),
            _ => {
                let mut body = vec![in self.heap; 3]?;
                body.extend_from_slice(&self.act_sheet().to_le_bytes())?;
                add_record(file, Kind::Act, body.as_slice())
            }
        }
    }

    fn add_any(&mut self, file: &mut Vec<u8>) -> Result<(), AllocError> {
        if self.has_tags && self.below(2) == 0 {
            return self.add_tagged_wish(file);
        }
        match self.below(12) {
            0..=4 => self.add_rule(file),
            5 => self.add_clause(file),
            6..=8 => self.add_wish(file),
            _ => self.add_act(file),
        }
    }

    // The bytes of a file. One in eight has more acts than can stand.
    pub fn file(mut self) -> Result<Vec<u8>, AllocError> {
        let house = self.sheet();
        let mut body = vec![in self.heap; self.count]?;
        body.extend_from_slice(&house.to_le_bytes())?;
        let mut file = Vec::new(self.heap);
        add_record(&mut file, Kind::Head, body.as_slice())?;
        if self.below(2) == 0 {
            self.add_free_rule(&mut file)?;
        }
        if self.below(3) == 0 {
            self.add_positive_loop(&mut file)?;
        }
        let limit = if self.has_tags { 32 } else { 16 };
        for _ in 0..self.below(limit) {
            self.add_any(&mut file)?;
        }
        if self.below(8) == 0 {
            self.add_many_acts(&mut file)?;
        }
        Ok(file)
    }

    fn add_many_acts(&mut self, file: &mut Vec<u8>) -> Result<(), AllocError> {
        for _ in 0..120 {
            self.add_act(file)?;
        }
        Ok(())
    }
}
