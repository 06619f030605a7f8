// What the reader makes of a file, as text.
use rulefile::{BadFile, ReadError, RuleFile, read};
use std::alloc::{AllocError, Global};
use std::fmt;
use std::fmt::Formatter;

// How many there are of each in a file.
#[derive(Clone, Copy)]
pub struct Sizes {
    marks: u8,
    rules: usize,
    clauses: usize,
    wishes: usize,
    acts: usize,
}

impl From<&RuleFile> for Sizes {
    fn from(file: &RuleFile) -> Sizes {
        Sizes {
            marks: file.count,
            rules: file.rules.len(),
            clauses: file.clauses.len(),
            wishes: file.wishes.len(),
            acts: file.acts.len(),
        }
    }
}

impl fmt::Display for Sizes {
    fn fmt<W: fmt::Write>(&self, f: &mut Formatter<W>) -> fmt::Result {
        let Sizes {
            marks,
            rules,
            clauses,
            wishes,
            acts,
        } = *self;
        write!(
            f,
            "read: {marks} marks, {rules} rules, {clauses} clauses, {wishes} wishes, {acts} acts"
        )
    }
}

// What the reader makes of the bytes; an error where memory is wanting.
pub fn outcome_of(heap: Global, bytes: &[u8]) -> anyhow::Result<Result<Sizes, BadFile>> {
    match read(heap, bytes) {
        Ok(file) => Ok(Ok(Sizes::from(&file))),
        Err(ReadError::Refused(bad)) => Ok(Err(bad)),
        Err(ReadError::Memory(error)) => Err(error.into()),
    }
}

// The line that says what the reader made of a file.
pub fn line_of(heap: Global, outcome: Result<Sizes, BadFile>) -> Result<String, AllocError> {
    match outcome {
        Ok(sizes) => format!(in heap; "{sizes}"),
        Err(bad) => format!(in heap; "{bad}"),
    }
}
