// A rule file as text, a line for each record, in file order. docs/TEXT.md has the grammar.
ghost use Rattle.std.specs.Iterator.{IsFinite};

use rulefile::{Act, BadFile, Clause, Constraint, Element, Kind, Rule, RuleFile, Wish};
use sheets::{Literal, Sheet, WIDTH, has_mark};
use std::fmt::{Display, Formatter};
use std::iter::Zip;
use std::ops::Range;
use std::{fmt, slice};

// Writes the items, with the text between each and the next. No `write!` for an item, here and in `LiteralText` and
// `ElementText`: it looks at its pieces each time, and a file can have thousands of items.
fn write_between<W: fmt::Write, I: Iterator>(
    f: &mut Formatter<W>,
    mut items: I,
    between: &str,
) -> fmt::Result
where
    I: Drop,
    I::Item: fmt::Display + Drop,
    requires can { I.can_next items }
    requires ends { IsFinite (I.remaining items) }
{
    let Some(first) = items.next() else {
        return Ok(());
    };
    first.fmt(f)?;
    for item in items {
        f.write_str(between)?;
        item.fmt(f)?;
    }
    Ok(())
}

// Displays the marks of a sheet upward, in braces.
#[derive(Clone, Copy)]
struct SheetText(Sheet);

impl fmt::Display for SheetText {
    fn fmt<W: fmt::Write>(&self, f: &mut Formatter<W>) -> fmt::Result {
        let sheet = self.0;
        f.write_str("{")?;
        write_between(f, (0..WIDTH).filter(|mark| has_mark(sheet, *mark)), ", ")?;
        f.write_str("}")
    }
}

// Displays a mark, or "not" and a mark.
#[derive(Clone, Copy)]
struct LiteralText(Literal);

impl fmt::Display for LiteralText {
    fn fmt<W: fmt::Write>(&self, f: &mut Formatter<W>) -> fmt::Result {
        let Literal { mark, negated } = self.0;
        if negated {
            f.write_str("not ")?;
        }
        mark.fmt(f)
    }
}

// Displays a literal and its weight.
#[derive(Clone, Copy)]
struct ElementText(Element);

impl fmt::Display for ElementText {
    fn fmt<W: fmt::Write>(&self, f: &mut Formatter<W>) -> fmt::Result {
        LiteralText(self.0.literal).fmt(f)?;
        f.write_str("=")?;
        self.0.weight.fmt(f)
    }
}

// Displays the bounds of a constraint, and its elements in braces.
#[derive(Clone, Copy)]
struct ConstraintText<'a>(&'a Constraint);

impl fmt::Display for ConstraintText<'_> {
    fn fmt<W: fmt::Write>(&self, f: &mut Formatter<W>) -> fmt::Result {
        let low = self.0.low;
        match self.0.high {
            Some(most) => write!(f, "{low} to {most} of {{")?,
            None => write!(f, "{low} or more of {{")?,
        }
        write_between(f, self.0.elements.iter().copied().map(ElementText), ", ")?;
        f.write_str("}")
    }
}

// Displays a record after the head.
#[derive(Clone, Copy)]
pub enum RecordText<'a> {
    // With its number.
    Rule(usize, &'a Rule),
    Clause(&'a Clause),
    Wish(&'a Wish),
    Act(Act),
}

// The number of the rule, its head, and its body if there is one.
fn write_rule<W: fmt::Write>(f: &mut Formatter<W>, number: usize, rule: &Rule) -> fmt::Result {
    let head = ConstraintText(&rule.head);
    write!(f, "rule {number}: {head}")?;
    if !rule.body.is_empty() {
        f.write_str(" if ")?;
    }
    write_between(f, rule.body.iter().map(ConstraintText), " and ")
}

// The literals of the clause, of which one is to hold.
fn write_clause<W: fmt::Write>(f: &mut Formatter<W>, clause: &Clause) -> fmt::Result {
    f.write_str("clause: ")?;
    if clause.literals.is_empty() {
        f.write_str("nothing")?;
    }
    write_between(f, clause.literals.iter().copied().map(LiteralText), " or ")
}

// The level of the wish, its tag if it has one, its weight, and the literals that are all to hold.
fn write_wish<W: fmt::Write>(f: &mut Formatter<W>, wish: &Wish) -> fmt::Result {
    let level = wish.level;
    write!(f, "wish: level {level}, ")?;
    if let Some(tag) = wish.tag {
        write!(f, "tag {tag}, ")?;
    }
    let weight = wish.weight;
    write!(f, "weight {weight}, if ")?;
    write_between(f, wish.literals.iter().copied().map(LiteralText), " and ")
}

impl fmt::Display for RecordText<'_> {
    fn fmt<W: fmt::Write>(&self, f: &mut Formatter<W>) -> fmt::Result {
        match *self {
            RecordText::Rule(number, rule) => write_rule(f, number, rule),
            RecordText::Clause(clause) => write_clause(f, clause),
            RecordText::Wish(wish) => write_wish(f, wish),
            RecordText::Act(Act::Pin(mark)) => write!(f, "act: pin {mark}"),
            RecordText::Act(Act::Bar(mark)) => write!(f, "act: bar {mark}"),
            RecordText::Act(Act::Strike(sheet)) => {
                let sheet = SheetText(sheet);
                write!(f, "act: strike {sheet}")
            }
            RecordText::Act(Act::Undo) => f.write_str("act: undo"),
        }
    }
}

// The records of each list that are still to come.
#[derive(Drop)]
struct Records<'a> {
    // With their numbers, of a range: `next` of an `Enumerate` asks that the number fits, which no type says here.
    rules: Zip<Range<usize>, slice::Iter<'a, Rule>>,
    clauses: slice::Iter<'a, Clause>,
    wishes: slice::Iter<'a, Wish>,
    acts: slice::Iter<'a, Act>,
}

impl<'a> Records<'a> {
    fn new(file: &'a RuleFile) -> Records<'a> {
        Records {
            rules: (0..file.rules.len()).zip(file.rules.iter()),
            clauses: file.clauses.iter(),
            wishes: file.wishes.iter(),
            acts: file.acts.iter(),
        }
    }

    // The next record of the kind.
    fn next(&mut self, kind: Kind) -> Option<RecordText<'a>> {
        match kind {
            Kind::Head => None,
            Kind::Rule => {
                let (number, rule) = self.rules.next()?;
                Some(RecordText::Rule(number, rule))
            }
            Kind::Clause => Some(RecordText::Clause(self.clauses.next()?)),
            Kind::Wish | Kind::TaggedWish => Some(RecordText::Wish(self.wishes.next()?)),
            Kind::Act => Some(RecordText::Act(*self.acts.next()?)),
        }
    }
}

// Displays a file in words.
#[derive(Clone, Copy)]
pub struct FileText<'a> {
    pub file: &'a RuleFile,
}

impl fmt::Display for FileText<'_> {
    fn fmt<W: fmt::Write>(&self, f: &mut Formatter<W>) -> fmt::Result {
        let count = self.file.count;
        let house = SheetText(self.file.house);
        writeln!(f, "head: {count} marks, house sheet {house}")?;
        let mut records = Records::new(self.file);
        for kind in self.file.kinds.iter() {
            if let Some(record) = records.next(*kind) {
                write!(f, "{record}")?;
            }
            f.write_str("\n")?;
        }
        Ok(())
    }
}

// Displays the refusal of a file, and in a second line what it means.
#[derive(Clone, Copy)]
pub struct RefusalText(pub BadFile);

impl fmt::Display for RefusalText {
    fn fmt<W: fmt::Write>(&self, f: &mut Formatter<W>) -> fmt::Result {
        let bad = self.0;
        let words = bad.why;
        writeln!(f, "{bad}")?;
        writeln!(f, "{words}")
    }
}
