// The rules of a docket, kept on a plain list of acts.
use rulefile::Act;
use sheets::{Mark, Sheet, WIDTH};
use std::alloc::{AllocError, Global};

const MOST_ACTS: usize = 32;

// The count, and the acts that stand.
#[derive(Drop)]
pub struct Docket {
    count: u8,
    acts: Vec<Act>,
}

impl Docket {
    pub fn new(heap: Global, count: u8) -> Docket {
        let acts = Vec::new(heap);
        Docket { count, acts }
    }

    // The acts that stand.
    pub fn acts(&self) -> &[Act] {
        self.acts.as_slice()
    }

    fn mark_refusal(&self, mark: Mark) -> Option<u8> {
        if mark >= self.count {
            Some(21)
        } else if self.acts.contains(&Act::Pin(mark)) || self.acts.contains(&Act::Bar(mark)) {
            Some(22)
        } else {
            None
        }
    }

    fn sheet_refusal(&self, sheet: Sheet) -> Option<u8> {
        if self.count < WIDTH && sheet >= 1 << self.count {
            Some(21)
        } else if self.acts.contains(&Act::Strike(sheet)) {
            Some(24)
        } else {
            None
        }
    }

    // The number by which the act is refused, by the first reason that applies.
    fn refusal(&self, act: Act) -> Option<u8> {
        let own = match act {
            Act::Pin(mark) | Act::Bar(mark) => self.mark_refusal(mark),
            Act::Strike(sheet) => self.sheet_refusal(sheet),
            Act::Undo => return self.acts.is_empty().then_some(26),
        };
        own.or((self.acts.len() >= MOST_ACTS).then_some(25))
    }

    // Calls the act; the answer is the number by which it is refused, if it is.
    pub fn call(&mut self, act: Act) -> Result<Option<u8>, AllocError> {
        let refusal = self.refusal(act);
        if refusal.is_some() {
            return Ok(refusal);
        }
        if act == Act::Undo {
            let _last = self.acts.pop();
        } else {
            self.acts.push(act)?;
        }
        Ok(None)
    }
}
