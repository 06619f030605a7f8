// One record, cut off the bytes of a file.
ghost use Rattle.std.specs.Prelude.{◌≡◌, ◌<◌, length, Err};
ghost use Rattle.rulefile.specs.Ranges.{is_length};
ghost use Rattle.rulefile.specs.Format.{cut as cut_spec};
ghost use Rattle.rulefile.specs.Answers.{parsed_record, Shorter};

use crate::limits::{LEAST_LENGTH, MOST_LENGTH};
use crate::refusals::Refusal;

// A record: the number of its kind, its body, and the bytes after it. A number: it may be no kind's, which is refused later.
#[derive(Drop)]
pub struct Record<'a> {
    pub kind: u16,
    pub body: &'a [u8],
    pub after: &'a [u8],
}

// A record can say this length.
fn length_fits(n: u32) -> bool
    ensures { result ≡ is_length n }
{
    (LEAST_LENGTH..=MOST_LENGTH).contains(&n)
}

// Why fewer than six bytes are no record.
#[tactic(auto, using(crate::proofs::Fields::little_4), unfolding(crate::specs::Format::cut))]
fn short(bytes: &[u8]) -> Refusal
    requires { length bytes.now < 6 }
    ensures { cut_spec bytes.now ≡ parsed_record (Err result) }
{
    let [a, b, c, d, ..] = bytes else {
        return Refusal::RecordCut;
    };
    if length_fits(u32::from_le_bytes([*a, *b, *c, *d])) {
        Refusal::LengthPastEnd
    } else {
        Refusal::LengthRange
    }
}

// By a rule of the project one slice pattern names the length bytes, the kind bytes and the rest.
#[tactic(auto, using(crate::proofs::Fields::little_4), unfolding(crate::specs::Format::cut))]
pub(crate) fn cut(bytes: &[u8]) -> Result<Record<'_>, Refusal>
    ensures value { cut_spec bytes.now ≡ parsed_record result }
    ensures shorter { Shorter (length bytes.now) result }
{
    let [a, b, c, d, k0, k1, rest @ ..] = bytes else {
        return Err(short(bytes));
    };
    let n = u32::from_le_bytes([*a, *b, *c, *d]);
    if !length_fits(n) {
        return Err(Refusal::LengthRange);
    }
    let size = (n - LEAST_LENGTH) as usize;
    if size > rest.len() {
        return Err(Refusal::LengthPastEnd);
    }
    let kind = u16::from_le_bytes([*k0, *k1]);
    let (body, after) = rest.split_at(size);
    Ok(Record { kind, body, after })
}
