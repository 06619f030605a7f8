// A file, record by record.
ghost use Rattle.std.specs.Prelude.{◌≡◌, ◌≤◌, ◌<◌, true, [], length, map, IfOk, MatchResult};
ghost use Rattle.rulefile.specs.Parser.{took, wholly};
ghost use Rattle.rulefile.specs.Model.{wish_of};
ghost use Rattle.rulefile.specs.Format.{wish_fields, room_at, head_alone, first as first_spec, later, whole as whole_spec, decode, file_or_head_alone};
ghost use Rattle.rulefile.specs.Answers.{file_of, draft_of, Parses, Faults, one_more};
ghost use Rattle.rulefile.specs.Laws.{Fits};
ghost use Rattle.rulefile.specs.Reading.{Reading};

use crate::body::{Body, Field};
use crate::draft::Draft;
use crate::files::RuleFile;
use crate::frame::cut;
use crate::groups::weak_constraints;
use crate::limits::{MOST_BYTES, MOST_OF_KIND};
use crate::records::{Head, Kind};
use crate::refusals::{Fault, ReadError, Refusal};
use crate::wishes::{TaggedWish, Wish};
use std::alloc::{AllocError, Global};

// Whether one more may be read for a list in which `n` are.
fn room(n: usize) -> Result<(), Refusal>
    ensures { result ≡ room_at n }
{
    if n < MOST_OF_KIND {
        Ok(())
    } else {
        Err(Refusal::TooManyOfKind)
    }
}

// One more record of a list is read from its body, and put behind those that were read before.
fn add_to<T: Field>(list: &mut Vec<T>, body: Body<'_>) -> Result<(), Fault>
    ensures { Parses (λ _. map T.meaning list.new.items) (one_more (map T.meaning list.old.items) (wholly (T.parser body.entry.count)) body.entry.rest.now) result [] }
{
    room(list.len())?;
    list.push(body.whole()?)?;
    Ok(())
}

// The same of a wish with a tag, which is put behind all wishes.
fn add_tagged(wishes: &mut Vec<Wish>, body: Body<'_>) -> Result<(), Fault>
    ensures { Parses (λ _. map wish_of wishes.new.items) (one_more (map wish_of wishes.old.items) (wholly (wish_fields true body.entry.count)) body.entry.rest.now) result [] }
{
    room(wishes.len())?;
    let TaggedWish(wish) = body.whole()?;
    wishes.push(wish)?;
    Ok(())
}

impl Draft {
    // A file with nothing but its head.
    fn head_alone(heap: Global, head: Head) -> Draft
        ensures { draft_of result ≡ head_alone (head.count, head.house) }
    {
        Draft {
            heap,
            count: head.count,
            house: head.house,
            rules: Vec::new(heap),
            clauses: Vec::new(heap),
            wishes: Vec::new(heap),
            acts: Vec::new(heap),
            kinds: Vec::new(heap),
        }
    }

    // The file that has read only its head, and the bytes after that.
    #[tactic(auto, unfolding(crate::specs::Format::first, crate::specs::Format::first_body, crate::specs::Format::head_body))]
    fn begin(heap: Global, bytes: &[u8]) -> Result<(Draft, &[u8]), Fault>
        ensures value { MatchResult result (λ p. whole_spec first_spec bytes.now ≡ took (draft_of p.0) p.1.now) (λ fault. Faults (whole_spec first_spec bytes.now) fault) }
        ensures shorter { IfOk result (λ p. length p.1.now < length bytes.now) }
    {
        let record = cut(bytes)?;
        let Kind::Head = Kind::try_from(record.kind)? else {
            return Err(Fault::Bad(Refusal::HeadMisplaced));
        };
        // No mark is below the count before it is read.
        let body = Body {
            heap,
            count: 0,
            rest: record.body,
        };
        Ok((Draft::head_alone(heap, body.whole()?), record.after))
    }

    // What a later record says is added, by its kind.
    #[tactic(auto, unfolding(crate::specs::Format::later, crate::specs::Format::later_body, crate::specs::Format::rule_body, crate::specs::Format::clause_body, crate::specs::Format::wish_body, crate::specs::Format::act_body))]
    fn add(&mut self, code: u16, body: &[u8]) -> Result<(), Fault>
        ensures { Parses (λ _. draft_of self.new) (later (draft_of self.old) code body.now) result [] }
    {
        let kind = Kind::try_from(code)?;
        let body = Body {
            heap: self.heap,
            count: self.count,
            rest: body,
        };
        match kind {
            Kind::Head => return Err(Fault::Bad(Refusal::HeadMisplaced)),
            Kind::Rule => add_to(&mut self.rules, body)?,
            Kind::Clause => add_to(&mut self.clauses, body)?,
            Kind::Wish => add_to(&mut self.wishes, body)?,
            Kind::Act => add_to(&mut self.acts, body)?,
            Kind::TaggedWish => add_tagged(&mut self.wishes, body)?,
        }
        self.kinds.push(kind)?;
        Ok(())
    }

    // The record at the front of the bytes is added; the answer is the bytes after it.
    fn add_first<'a>(&mut self, bytes: &'a [u8]) -> Result<&'a [u8], Fault>
        ensures value { MatchResult result (λ rest. whole_spec (later (draft_of self.old)) bytes.now ≡ took (draft_of self.new) rest.now) (λ fault. Faults (whole_spec (later (draft_of self.old)) bytes.now) fault) }
        ensures shorter { IfOk result (λ rest. length rest.now < length bytes.now) }
    {
        let record = cut(bytes)?;
        self.add(record.kind, record.body)?;
        Ok(record.after)
    }

    // The file, once it is read to its end. No `From`, which could not ask for the limits.
    #[tactic(auto, using(crate::proofs::Fits::fit_made))]
    fn finish(self) -> Result<RuleFile, AllocError>
        requires { Fits (draft_of self) }
        ensures { IfOk result (λ f. file_of f ≡ draft_of self) }
    {
        let Draft {
            heap,
            count,
            house,
            rules,
            clauses,
            wishes,
            acts,
            kinds,
        } = self;
        let (singles, groups) = weak_constraints(heap, &wishes)?;
        Ok(RuleFile {
            count,
            house,
            rules,
            clauses,
            wishes,
            singles,
            groups,
            acts,
            kinds,
        })
    }
}

// The file that the bytes stand for, or why and where they are refused. The allocator stays a parameter of its own and comes
// first, as in the library's calls that allocate; so in `Draft::begin` and below.
pub fn read(heap: Global, bytes: &[u8]) -> Result<RuleFile, ReadError>
    ensures { Reading bytes.now result }
{
    let size = bytes.len();
    if size > MOST_BYTES {
        return Err(Fault::Bad(Refusal::FileTooLong).located(0));
    }
    let (mut draft, mut rest) = Draft::begin(heap, bytes).map_err(|fault| fault.located(0))?;
    // What is left gets shorter by a record at each turn, and nothing is counted.
    while !rest.is_empty() {
        let at = size - rest.len();
        rest = draft.add_first(rest).map_err(|fault| fault.located(at))?;
    }
    Ok(draft.finish()?)
}

// The file that the bytes stand for; refused bytes stand for a head alone, with count 1 and an empty house sheet.
pub fn read_or_head_alone(heap: Global, bytes: &[u8]) -> Result<RuleFile, AllocError>
    ensures { IfOk result (λ f. file_of f ≡ file_or_head_alone (decode bytes.now)) }
{
    match read(heap, bytes) {
        Ok(file) => Ok(file),
        Err(ReadError::Memory(error)) => Err(error),
        Err(ReadError::Refused(_)) => {
            let head = Head { count: 1, house: 0 };
            Draft::head_alone(heap, head).finish()
        }
    }
}
