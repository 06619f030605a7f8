// The fields of a record's body, read one after another.
ghost use Rattle.std.specs.Prelude.{◌≡◌, ◌≤◌, ℕ, true, false, List, [], length, map, vec_items};
ghost use Rattle.sheets.specs.Sheets.{width};
ghost use Rattle.sheets.specs.declared.literals.Literal.{Literal};
ghost use Rattle.rulefile.specs.Ranges.{is_weight, sheet_bytes};
ghost use Rattle.rulefile.specs.declared.constraints.Element.{Element};
ghost use Rattle.rulefile.specs.declared.records.Act.{Act};
ghost use Rattle.rulefile.specs.Model.{ConstraintModel, RuleModel, WishModel, constraint_of, rule_of, clause_of, wish_of};
ghost use Rattle.rulefile.specs.Parser.{Parser, little, bytes as bytes_spec, within as within_spec, times, end as end_spec, wholly, parsed};
ghost use Rattle.rulefile.specs.Format.{literal as literal_spec, element as element_spec, constraint as constraint_spec, high_of, sheet_length, sheet_field, act_fields, head_fields, rule_fields, clause_fields, tag_field, wish_fields};
ghost use Rattle.rulefile.specs.Answers.{Parses};

use crate::constraints::{Constraint, Element};
use crate::limits::{
    MOST_CLAUSE_LITERALS, MOST_CODE, MOST_CONSTRAINTS, MOST_ELEMENTS, MOST_MARKS, MOST_WEIGHT,
    MOST_WISH_LITERALS, NO_HIGH, NOT, SHEET_BYTES, TOP_LEVEL,
};
use crate::records::{Act, Clause, Head, Rule};
use crate::refusals::{Fault, Refusal};
use crate::uniform::Uniform;
use crate::wishes::{TaggedWish, Wish};
use sheets::{Literal, LiteralSet, Sheet, within_count};
use std::alloc::Global;

// How many bytes a sheet field has where there are so many marks. All that read one ask here.
fn sheet_length(_count: u8) -> usize
    ensures { result ≡ sheet_length _count }
{
    SHEET_BYTES
}

// The sheet of at most so many bytes, the lowest first.
fn sheet_of(bytes: &[u8]) -> Sheet
    requires { length bytes.now ≤ sheet_bytes }
    ensures { result ≡ little bytes.now }
{
    let mut word = [0; SHEET_BYTES];
    word[..bytes.len()].copy_from_slice(bytes);
    Sheet::from_le_bytes(word)
}

// What is left of a body whose marks are below `count`, and the memory for what is read of it.
#[derive(Drop)]
pub struct Body<'a> {
    pub heap: Global,
    pub count: u8,
    pub rest: &'a [u8],
    // The count is at most the number of marks.
    ghost few: { count ≤ width },
}

// What can be read from the front of a body.
pub trait Field: Drop + Sized {
    // What a value says, without the memory that it takes.
    ghost Meaning: { Type 0 };

    ghost meaning: { Self → Meaning };

    // How the bytes are read where the marks are below a count.
    ghost parser: { ℕ → Parser Meaning };

    // Each reader says that the count stays, since no type says it of a field behind a `&mut`.
    fn read(body: &mut Body<'_>) -> Result<Self, Fault>
        ensures parses { Parses meaning (parser body.old.count body.old.rest.now) result body.new.rest.now }
        ensures kept { body.new.count ≡ body.old.count };
}

impl<'a> Body<'a> {
    // The next `N` bytes.
    fn bytes<const N: usize>(&mut self) -> Result<[u8; N], Refusal>
        ensures parses { bytes_spec N Refusal.BodyLength self.old.rest.now ≡ parsed result self.new.rest.now }
        ensures kept { self.new.count ≡ self.old.count }
    {
        let Some((bytes, rest)) = self.rest.split_first_chunk() else {
            return Err(Refusal::BodyLength);
        };
        self.rest = rest;
        Ok(*bytes)
    }

    // A sheet of marks below the count, which is an argument since a head says it.
    #[tactic(auto, unfolding(crate::specs::Parser::field))]
    fn sheet(&mut self, count: u8) -> Result<Sheet, Refusal>
        ensures parses { sheet_field count self.old.rest.now ≡ parsed result self.new.rest.now }
        ensures kept { self.new.count ≡ self.old.count }
    {
        let Some((bytes, rest)) = self.rest.split_at_checked(sheet_length(count)) else {
            return Err(Refusal::BodyLength);
        };
        self.rest = rest;
        Ok(sheet_of(bytes))
    }

    // A one-byte number from `low` to `high`.
    #[tactic(auto, using(crate::proofs::Fields::little_of_1), unfolding(crate::specs::Parser::within, crate::specs::Parser::field))]
    fn within(&mut self, low: u8, high: u8) -> Result<u8, Refusal>
        ensures parses { within_spec low high self.old.rest.now ≡ parsed result self.new.rest.now }
        ensures kept { self.new.count ≡ self.old.count }
    {
        let [n] = self.bytes::<1>()?;
        if !(low..=high).contains(&n) {
            return Err(Refusal::OutOfRange);
        }
        Ok(n)
    }

    // `n` fields, one after another. A `for` that pushes, since it ends at the first that fails.
    fn several<T: Field>(&mut self, n: u8) -> Result<Vec<T>, Fault>
        ensures parses { Parses (λ v. map T.meaning (vec_items v)) (times n (T.parser self.old.count) self.old.rest.now) result self.new.rest.now }
        ensures kept { self.new.count ≡ self.old.count }
    {
        let mut all = Vec::new(self.heap);
        for _i in 0..n {
            all.push(T::read(self)?)?;
        }
        Ok(all)
    }

    // Nothing is left.
    fn end(&self) -> Result<(), Refusal>
        ensures { end_spec self.now.rest.now ≡ parsed result [] }
    {
        if self.rest.is_empty() {
            Ok(())
        } else {
            Err(Refusal::BodyLength)
        }
    }

    // What a body says, read to its last byte.
    pub fn whole<T: Field>(mut self) -> Result<T, Fault>
        ensures { Parses T.meaning (wholly (T.parser self.entry.count) self.entry.rest.now) result [] }
    {
        let said = T::read(&mut self)?;
        self.end()?;
        Ok(said)
    }
}

// A mark below the count, or "not" such a mark.
#[tactic(auto, using(crate::proofs::Fields::little_of_1), unfolding(crate::specs::Format::literal, crate::specs::Parser::field))]
impl Field for Literal {
    ghost Meaning = { Literal };

    ghost meaning = { λ l. l };

    ghost parser = { literal_spec };

    fn read(body: &mut Body<'_>) -> Result<Literal, Fault> {
        let [b] = body.bytes::<1>()?;
        let mark = b % NOT;
        if mark >= body.count {
            return Err(Fault::Bad(Refusal::MarkRange));
        }
        Ok(Literal {
            mark,
            negated: b >= NOT,
        })
    }
}

#[tactic(auto, using(crate::proofs::Fields::little_of_2), unfolding(crate::specs::Format::element, crate::specs::Parser::field))]
impl Field for Element {
    ghost Meaning = { Element };

    ghost meaning = { λ e. e };

    ghost parser = { element_spec };

    fn read(body: &mut Body<'_>) -> Result<Element, Fault> {
        let literal = Literal::read(body)?;
        let weight = u16::from_le_bytes(body.bytes()?);
        Ok(Element { literal, weight })
    }
}

#[tactic(auto, using(crate::proofs::Fields::little_of_4), unfolding(crate::specs::Format::constraint, crate::specs::Parser::field))]
impl Field for Constraint {
    ghost Meaning = { ConstraintModel };

    ghost meaning = { constraint_of };

    ghost parser = { constraint_spec };

    fn read(body: &mut Body<'_>) -> Result<Constraint, Fault> {
        let low = u32::from_le_bytes(body.bytes()?);
        let top = u32::from_le_bytes(body.bytes()?);
        let n = body.within(0, MOST_ELEMENTS)?;
        let elements: Vec<Element> = body.several(n)?;
        let uniform = Uniform::of(&elements);
        Ok(Constraint {
            low,
            high: high_of(top),
            elements,
            uniform,
        })
    }
}

// The high bound that a field says, if it says one.
fn high_of(top: u32) -> Option<u32>
    ensures { result ≡ high_of top }
{
    if top == NO_HIGH { None } else { Some(top) }
}

#[tactic(auto, unfolding(crate::specs::Format::head_fields))]
impl Field for Head {
    ghost Meaning = { ℕ × ℕ };

    ghost meaning = { λ h. (h.count, h.house) };

    ghost parser = { λ _. head_fields };

    fn read(body: &mut Body<'_>) -> Result<Head, Fault> {
        let count = body.within(1, MOST_MARKS)?;
        let house = body.sheet(count)?;
        if !within_count(house, count) {
            return Err(Fault::Bad(Refusal::MarkRange));
        }
        Ok(Head { count, house })
    }
}

#[tactic(auto, unfolding(crate::specs::Format::rule_fields, crate::specs::Parser::field))]
impl Field for Rule {
    ghost Meaning = { RuleModel };

    ghost meaning = { rule_of };

    ghost parser = { rule_fields };

    fn read(body: &mut Body<'_>) -> Result<Rule, Fault> {
        let n = body.within(0, MOST_CONSTRAINTS)?;
        let head = Constraint::read(body)?;
        let constraints = body.several(n)?;
        Ok(Rule {
            head,
            body: constraints,
        })
    }
}

#[tactic(auto, unfolding(crate::specs::Format::clause_fields, crate::specs::Parser::field))]
impl Field for Clause {
    ghost Meaning = { List Literal };

    ghost meaning = { clause_of };

    ghost parser = { clause_fields };

    fn read(body: &mut Body<'_>) -> Result<Clause, Fault> {
        let n = body.within(0, MOST_CLAUSE_LITERALS)?;
        let literals: Vec<Literal> = body.several(n)?;
        let set = LiteralSet::of(&literals);
        Ok(Clause { literals, set })
    }
}

// The weight of a wish is in its range.
fn weight_fits(weight: i16) -> bool
    ensures { result ≡ is_weight weight }
{
    (-MOST_WEIGHT..=MOST_WEIGHT).contains(&weight)
}

// The tag of a wish, if it has one.
#[tactic(auto, using(crate::proofs::Fields::little_of_2), unfolding(crate::specs::Format::tag_field, crate::specs::Parser::field))]
fn tag(body: &mut Body<'_>, is_tagged: bool) -> Result<Option<u16>, Refusal>
    ensures parses { tag_field is_tagged body.old.rest.now ≡ parsed result body.new.rest.now }
    ensures kept { body.new.count ≡ body.old.count }
{
    if is_tagged {
        Ok(Some(u16::from_le_bytes(body.bytes()?)))
    } else {
        Ok(None)
    }
}

impl Wish {
    // A wish, with a tag or without.
    #[tactic(auto, using(crate::proofs::Fields::little_of_2), unfolding(crate::specs::Format::wish_fields, crate::specs::Parser::field, crate::specs::Format::signed_field))]
    fn read_of(body: &mut Body<'_>, is_tagged: bool) -> Result<Wish, Fault>
        ensures parses { Parses wish_of (wish_fields is_tagged body.old.count body.old.rest.now) result body.new.rest.now }
        ensures kept { body.new.count ≡ body.old.count }
    {
        let level = body.within(1, TOP_LEVEL)?;
        let tag = tag(body, is_tagged)?;
        let weight = i16::from_le_bytes(body.bytes()?);
        if !weight_fits(weight) {
            return Err(Fault::Bad(Refusal::OutOfRange));
        }
        let n = body.within(1, MOST_WISH_LITERALS)?;
        let literals = body.several(n)?;
        Ok(Wish {
            level,
            tag,
            weight,
            literals,
        })
    }
}

impl Field for Wish {
    ghost Meaning = { WishModel };

    ghost meaning = { wish_of };

    ghost parser = { wish_fields false };

    fn read(body: &mut Body<'_>) -> Result<Wish, Fault> {
        Wish::read_of(body, false)
    }
}

impl Field for TaggedWish {
    ghost Meaning = { WishModel };

    ghost meaning = { λ tagged. wish_of tagged.0 };

    ghost parser = { wish_fields true };

    fn read(body: &mut Body<'_>) -> Result<TaggedWish, Fault> {
        let wish = Wish::read_of(body, true)?;
        Ok(TaggedWish(wish))
    }
}

#[tactic(auto, using(crate::proofs::Fields::little_of_1), unfolding(crate::specs::Format::act_fields, crate::specs::Parser::field, crate::specs::Format::act_of))]
impl Field for Act {
    ghost Meaning = { Act };

    ghost meaning = { λ a. a };

    ghost parser = { act_fields };

    fn read(body: &mut Body<'_>) -> Result<Act, Fault> {
        // The number goes no further, so no enum is made of it.
        let code = body.within(1, MOST_CODE)?;
        match code {
            1 => {
                let [mark] = body.bytes::<1>()?;
                Ok(Act::Pin(mark))
            }
            2 => {
                let [mark] = body.bytes::<1>()?;
                Ok(Act::Bar(mark))
            }
            3 => Ok(Act::Strike(body.sheet(body.count)?)),
            _ => Ok(Act::Undo),
        }
    }
}
