// The rules of a docket, kept on a plain list of acts.
use orders::{Act, Call, Refusal};
use sheets::{Mark, Sheet};
use std::alloc::{AllocError, Global};

// How many acts can stand: the program's own number.
const MOST_ACTS: usize = 32;

// The number by which the refusal is to be known: the program's own table, which the engine's numbers are held against.
pub fn number_of(refusal: Refusal) -> u8 {
    match refusal {
        Refusal::MarkRange => 21,
        Refusal::MarkTaken => 22,
        Refusal::SheetStruck => 24,
        Refusal::DocketFull => 25,
        Refusal::DocketEmpty => 26,
    }
}

// The count, and the acts that stand.
#[derive(Drop)]
pub struct Ledger {
    count: u8,
    acts: Vec<Act>,
}

impl Ledger {
    pub fn new(heap: Global, count: u8) -> Ledger {
        let acts = Vec::new(heap);
        Ledger { count, acts }
    }

    pub fn acts(&self) -> &[Act] {
        self.acts.as_slice()
    }

    fn check_mark(&self, mark: Mark) -> Result<(), Refusal> {
        if mark >= self.count {
            Err(Refusal::MarkRange)
        } else if self.acts.contains(&Act::Pin(mark)) || self.acts.contains(&Act::Bar(mark)) {
            Err(Refusal::MarkTaken)
        } else {
            Ok(())
        }
    }

    fn check_sheet(&self, sheet: Sheet) -> Result<(), Refusal> {
        if self.count < 64 && sheet >= 1 << self.count {
            Err(Refusal::MarkRange)
        } else if self.acts.contains(&Act::Strike(sheet)) {
            Err(Refusal::SheetStruck)
        } else {
            Ok(())
        }
    }

    // Refuses the act by the first refusal that applies.
    fn check(&self, act: Act) -> Result<(), Refusal> {
        match act {
            Act::Pin(mark) | Act::Bar(mark) => self.check_mark(mark)?,
            Act::Strike(sheet) => self.check_sheet(sheet)?,
        }
        if self.acts.len() < MOST_ACTS {
            Ok(())
        } else {
            Err(Refusal::DocketFull)
        }
    }

    // Adds the act, unless it is refused; returns how many acts then stand.
    fn add(&mut self, act: Act) -> Result<Result<usize, Refusal>, AllocError> {
        if let Err(why) = self.check(act) {
            return Ok(Err(why));
        }
        self.acts.push(act)?;
        Ok(Ok(self.acts.len()))
    }

    // Takes the last act off; returns how many acts then stand.
    fn undo(&mut self) -> Result<usize, Refusal> {
        let _last = self.acts.pop().ok_or(Refusal::DocketEmpty)?;
        Ok(self.acts.len())
    }

    // What a call is to be answered that takes no step of a search; none where it moves the order to another stage.
    pub fn take(&mut self, call: Call) -> Result<Option<Result<usize, Refusal>>, AllocError> {
        let answer = match call {
            Call::Pin(mark) => self.add(Act::Pin(mark))?,
            Call::Bar(mark) => self.add(Act::Bar(mark))?,
            Call::Strike(sheet) => self.add(Act::Strike(sheet))?,
            Call::Undo => self.undo(),
            _ => return Ok(None),
        };
        Ok(Some(answer))
    }
}
