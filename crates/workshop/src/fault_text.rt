// The fault of a refused file, in words. docs/REFUSALS.md has an example of each.
use crate::faults::{Fault, Field, Found, RulePart};
use rulefile::Kind;
use rulefile::limits::{LEAST_LENGTH, MOST_BYTES, MOST_LENGTH, MOST_OF_KIND};
use std::fmt;
use std::fmt::Formatter;

// The name of a kind.
fn kind_name(kind: Kind) -> &'static str {
    match kind {
        Kind::Head => "head",
        Kind::Rule => "rule",
        Kind::Clause => "clause",
        Kind::Wish => "wish",
        Kind::Act => "act",
        Kind::TaggedWish => "wish with a tag",
    }
}

// Displays which constraint it is.
#[derive(Clone, Copy)]
struct RulePartText(RulePart);

impl fmt::Display for RulePartText {
    fn fmt<W: fmt::Write>(&self, f: &mut Formatter<W>) -> fmt::Result {
        match self.0 {
            RulePart::Head => f.write_str("head constraint"),
            RulePart::Body(number) => write!(f, "body constraint {number}"),
        }
    }
}

// Displays which field of a body it is.
#[derive(Clone, Copy)]
struct FieldText(Field);

impl FieldText {
    // A field of a constraint.
    fn in_part<W: fmt::Write>(f: &mut Formatter<W>, part: RulePart, name: &str) -> fmt::Result {
        let part = RulePartText(part);
        write!(f, "{part}, {name}")
    }

    // The same of an element with a number.
    fn of_element<W: fmt::Write>(
        f: &mut Formatter<W>,
        part: RulePart,
        name: &str,
        number: u8,
    ) -> fmt::Result {
        FieldText::in_part(f, part, name)?;
        write!(f, " {number}")
    }
}

impl fmt::Display for FieldText {
    fn fmt<W: fmt::Write>(&self, f: &mut Formatter<W>) -> fmt::Result {
        match self.0 {
            Field::Count => f.write_str("count"),
            Field::HouseSheet => f.write_str("house sheet"),
            Field::BodyCount => f.write_str("number of body constraints"),
            Field::LowBound(part) => FieldText::in_part(f, part, "low bound"),
            Field::HighBound(part) => FieldText::in_part(f, part, "high bound"),
            Field::ElementCount(part) => FieldText::in_part(f, part, "element count"),
            Field::Element(part, number) => FieldText::of_element(f, part, "element", number),
            Field::ElementWeight(part, number) => FieldText::of_element(
                f,
                part,
                "weight of element",
                number,
            ),
            Field::LiteralCount => f.write_str("literal count"),
            Field::Literal(number) => write!(f, "literal {number}"),
            Field::Level => f.write_str("level"),
            Field::Tag => f.write_str("tag"),
            Field::Weight => f.write_str("weight"),
            Field::Code => f.write_str("code"),
            Field::Mark => f.write_str("mark"),
            Field::Sheet => f.write_str("sheet"),
        }
    }
}

// Displays what was found and what is allowed.
#[derive(Clone, Copy)]
struct FoundText(Found);

impl FoundText {
    // A field of a body that is missing.
    fn missing<W: fmt::Write>(
        f: &mut Formatter<W>,
        field: Field,
        left: usize,
        size: usize,
    ) -> fmt::Result {
        let field = FieldText(field);
        write!(f, "{field}: {left} bytes left, it takes {size}")
    }

    // A number in a field of a body.
    fn number<W: fmt::Write>(
        f: &mut Formatter<W>,
        field: Field,
        value: i32,
        low: i32,
        high: i32,
    ) -> fmt::Result {
        let field = FieldText(field);
        write!(f, "{field}: {value}, allowed {low} to {high}")
    }

    // A mark in a field of a body.
    fn mark<W: fmt::Write>(f: &mut Formatter<W>, field: Field, mark: u8, count: u8) -> fmt::Result {
        let field = FieldText(field);
        write!(f, "{field}: mark {mark}, allowed below {count}")
    }

    // The number of a kind, where all kinds are allowed.
    fn kind<W: fmt::Write>(f: &mut Formatter<W>, code: u16) -> fmt::Result {
        let first = Kind::Head.number();
        let last = Kind::Act.number();
        let tagged = Kind::TaggedWish.number();
        write!(f, "kind: {code}, allowed {first} to {last} and {tagged}")
    }

    // The number of another kind in record 0, where a head alone is allowed.
    fn no_head<W: fmt::Write>(f: &mut Formatter<W>, code: u16) -> fmt::Result {
        let head = Kind::Head.number();
        write!(f, "kind: {code}, allowed {head} alone in record 0")
    }

    // A head in a later record, where all other kinds are allowed.
    fn second_head<W: fmt::Write>(f: &mut Formatter<W>) -> fmt::Result {
        let head = Kind::Head.number();
        let first = Kind::Rule.number();
        let last = Kind::Act.number();
        let tagged = Kind::TaggedWish.number();
        write!(
            f,
            "kind: {head}, allowed {first} to {last} and {tagged} after record 0"
        )
    }

    // The length of a record.
    fn length<W: fmt::Write>(f: &mut Formatter<W>, size: u32) -> fmt::Result {
        write!(f, "length: {size}, allowed {LEAST_LENGTH} to {MOST_LENGTH}")
    }
}

impl fmt::Display for FoundText {
    fn fmt<W: fmt::Write>(&self, f: &mut Formatter<W>) -> fmt::Result {
        match self.0 {
            Found::FileLength(size) => write!(
                f,
                "{size} bytes or more, allowed at most {MOST_BYTES}"
            ),
            Found::Cut(left) => write!(f, "length: {left} bytes left, it takes 4"),
            Found::Length(size) => FoundText::length(f, size),
            Found::PastEnd(size, left) => write!(
                f,
                "length: {size}, with {left} bytes left after it"
            ),
            Found::UnknownKind(code) => FoundText::kind(f, code),
            Found::NoHead(code) => FoundText::no_head(f, code),
            Found::SecondHead => FoundText::second_head(f),
            Found::TooMany => write!(
                f,
                "number of its kind: {}, allowed at most {MOST_OF_KIND}",
                MOST_OF_KIND + 1
            ),
            Found::Missing(field, left, size) => FoundText::missing(f, field, left, size),
            Found::LeftOver(left) => write!(f, "{left} bytes left over after the last field"),
            Found::Number(field, value, low, high) => FoundText::number(f, field, value, low, high),
            Found::Mark(field, mark, count) => FoundText::mark(f, field, mark, count),
        }
    }
}

// Displays a fault: the record, its kind, the field, what was found and what is allowed.
#[derive(Clone, Copy)]
pub struct FaultText(pub Fault);

impl fmt::Display for FaultText {
    fn fmt<W: fmt::Write>(&self, f: &mut Formatter<W>) -> fmt::Result {
        let Fault {
            record,
            kind,
            found,
        } = self.0;
        match found {
            Found::FileLength(_) => f.write_str("the file: ")?,
            _ => write!(f, "record {record}, ")?,
        }
        if let Some(kind) = kind {
            let name = kind_name(kind);
            write!(f, "{name}, ")?;
        }
        let found = FoundText(found);
        write!(f, "{found}")
    }
}
