// A walk through records and the fields of their bodies, which keeps nothing but the first fault.
ghost use Rattle.std.specs.Prelude.{◌<◌, length, IfOk};

use crate::faults::{Field, Found, RulePart};
use rulefile::Kind;
use rulefile::limits::{
    LEAST_LENGTH, MOST_CLAUSE_LITERALS, MOST_CODE, MOST_CONSTRAINTS, MOST_ELEMENTS, MOST_LENGTH,
    MOST_MARKS, MOST_WEIGHT, MOST_WISH_LITERALS, NOT, SHEET_BYTES, TOP_LEVEL,
};
use sheets::{Mark, Sheet, has_mark, within_count};

// A record: the number of its kind, its body, and the bytes after it.
#[derive(Drop)]
pub struct Record<'a> {
    pub kind: u16,
    pub body: &'a [u8],
    pub after: &'a [u8],
}

// The record at the front of the bytes, or what is wrong with its length.
pub fn cut(bytes: &[u8]) -> Result<Record<'_>, Found>
    ensures { IfOk result (λ r. length r.after.now < length bytes.now) }
{
    let Some((size, rest)) = bytes.split_first_chunk::<4>() else {
        return Err(Found::Cut(bytes.len()));
    };
    let size = u32::from_le_bytes(*size);
    if !(LEAST_LENGTH..=MOST_LENGTH).contains(&size) {
        return Err(Found::Length(size));
    }
    let [k0, k1, rest @ ..] = rest else {
        return Err(Found::PastEnd(size, rest.len()));
    };
    let room = (size - LEAST_LENGTH) as usize;
    if room > rest.len() {
        return Err(Found::PastEnd(size, rest.len() + LEAST_LENGTH as usize));
    }
    let (body, after) = rest.split_at(room);
    Ok(Record {
        kind: u16::from_le_bytes([*k0, *k1]),
        body,
        after,
    })
}

// The records at the front of the bytes, up to one whose length is wrong.
#[derive(Drop)]
pub struct Records<'a>(pub &'a [u8]);

impl<'a> Iterator for Records<'a> {
    type Item = Record<'a>;

    ghost use Rattle.std.specs.Iterator.{at_most};

    ghost remaining = { λ s. at_most (length s.0.now) };

    fn next(&mut self) -> Option<Record<'a>> {
        match cut(self.0) {
            Ok(record) => {
                self.0 = record.after;
                Some(record)
            }
            Err(_) => None,
        }
    }
}

// What is left of a body whose marks are below `count`. Each method goes past what it is named for, or answers its fault.
#[derive(Drop)]
pub struct Walk<'a> {
    pub rest: &'a [u8],
    pub count: u8,
}

impl Walk<'_> {
    // A field of `N` bytes.
    fn bytes<const N: usize>(&mut self, field: Field) -> Result<[u8; N], Found> {
        let Some((bytes, rest)) = self.rest.split_first_chunk::<N>() else {
            return Err(Found::Missing(field, self.rest.len(), N));
        };
        self.rest = rest;
        Ok(*bytes)
    }

    // A one-byte number from `low` to `high`.
    fn number(&mut self, field: Field, low: u8, high: u8) -> Result<u8, Found> {
        let [n] = self.bytes::<1>(field)?;
        if !(low..=high).contains(&n) {
            return Err(Found::Number(field, n.into(), low.into(), high.into()));
        }
        Ok(n)
    }

    // A literal byte.
    fn literal(&mut self, field: Field) -> Result<(), Found> {
        let [byte] = self.bytes::<1>(field)?;
        let mark: Mark = byte % NOT;
        if mark >= self.count {
            return Err(Found::Mark(field, mark, self.count));
        }
        Ok(())
    }

    // A literal count from `low` to `high`, and so many literals.
    fn literals(&mut self, low: u8, high: u8) -> Result<(), Found> {
        let n = self.number(Field::LiteralCount, low, high)?;
        for i in 0..n {
            self.literal(Field::Literal(i))?;
        }
        Ok(())
    }

    // A constraint.
    fn constraint(&mut self, part: RulePart) -> Result<(), Found> {
        self.bytes::<4>(Field::LowBound(part))?;
        self.bytes::<4>(Field::HighBound(part))?;
        let n = self.number(Field::ElementCount(part), 0, MOST_ELEMENTS)?;
        for i in 0..n {
            self.literal(Field::Element(part, i))?;
            self.bytes::<2>(Field::ElementWeight(part, i))?;
        }
        Ok(())
    }

    // The body of a head.
    fn head(&mut self) -> Result<(), Found> {
        let count = self.number(Field::Count, 1, MOST_MARKS)?;
        let house = Sheet::from_le_bytes(self.bytes::<SHEET_BYTES>(Field::HouseSheet)?);
        if within_count(house, count) {
            return Ok(());
        }
        let mark = (count..MOST_MARKS).find(|mark| has_mark(house, *mark));
        Err(Found::Mark(Field::HouseSheet, mark.unwrap_or(count), count))
    }

    // The body of a rule.
    fn rule(&mut self) -> Result<(), Found> {
        let n = self.number(Field::BodyCount, 0, MOST_CONSTRAINTS)?;
        self.constraint(RulePart::Head)?;
        for i in 0..n {
            self.constraint(RulePart::Body(i))?;
        }
        Ok(())
    }

    // The level of a wish.
    fn level(&mut self) -> Result<(), Found> {
        self.number(Field::Level, 1, TOP_LEVEL)?;
        Ok(())
    }

    // What a wish has behind its level and its tag: the weight, and the literals.
    fn weighed(&mut self) -> Result<(), Found> {
        let weight = i16::from_le_bytes(self.bytes(Field::Weight)?);
        if !(-MOST_WEIGHT..=MOST_WEIGHT).contains(&weight) {
            let most: i32 = MOST_WEIGHT.into();
            return Err(Found::Number(Field::Weight, weight.into(), -most, most));
        }
        self.literals(1, MOST_WISH_LITERALS)
    }

    // The body of a wish.
    fn wish(&mut self) -> Result<(), Found> {
        self.level()?;
        self.weighed()
    }

    // The body of a wish with a tag, which can be any number of two bytes.
    fn tagged_wish(&mut self) -> Result<(), Found> {
        self.level()?;
        self.bytes::<2>(Field::Tag)?;
        self.weighed()
    }

    // The body of an act.
    fn act(&mut self) -> Result<(), Found> {
        match self.number(Field::Code, 1, MOST_CODE)? {
            1 | 2 => {
                self.bytes::<1>(Field::Mark)?;
            }
            3 => {
                self.bytes::<SHEET_BYTES>(Field::Sheet)?;
            }
            _ => {}
        }
        Ok(())
    }

    // The body of a record of the kind, to its last byte.
    pub fn whole(&mut self, kind: Kind) -> Result<(), Found> {
        match kind {
            Kind::Head => self.head()?,
            Kind::Rule => self.rule()?,
            Kind::Clause => self.literals(0, MOST_CLAUSE_LITERALS)?,
            Kind::Wish => self.wish()?,
            Kind::Act => self.act()?,
            Kind::TaggedWish => self.tagged_wish()?,
        }
        if self.rest.is_empty() {
            Ok(())
        } else {
            Err(Found::LeftOver(self.rest.len()))
        }
    }
}
