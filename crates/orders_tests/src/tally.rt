// What was conducted, in numbers.
use orders::{Answer, Refusal};
use std::fmt::Formatter;
use std::{fmt, io};

// How many there were of each.
#[derive(Clone, Copy)]
pub struct Tally {
    runs: u64,
    calls: u64,
    events: u64,
    stands: u64,
    // Each refusal, and how many calls it refused.
    refused: [(Refusal, u64); 5],
    moved: u64,
    advances: u64,
    steps: u64,
    sheets: u64,
    none: u64,
    differences: u64,
}

impl fmt::Display for Tally {
    fn fmt<W: fmt::Write>(&self, f: &mut Formatter<W>) -> fmt::Result {
        let Tally {
            runs,
            calls,
            events,
            differences,
            ..
        } = self;
        write!(
            f,
            "{runs} runs: {calls} calls, {events} answered, {differences} differences"
        )
    }
}

impl Tally {
    // No `Default`: a refusal has none.
    pub fn new() -> Tally {
        Tally {
            runs: 0,
            calls: 0,
            events: 0,
            stands: 0,
            refused: [
                (Refusal::MarkRange, 0),
                (Refusal::MarkTaken, 0),
                (Refusal::SheetStruck, 0),
                (Refusal::DocketFull, 0),
                (Refusal::DocketEmpty, 0),
            ],
            moved: 0,
            advances: 0,
            steps: 0,
            sheets: 0,
            none: 0,
            differences: 0,
        }
    }

    pub fn add_run(&mut self, calls: usize) {
        self.runs = self.runs.wrapping_add(1);
        self.calls = self.calls.wrapping_add(calls as u64);
    }

    // A `for`, since no proof is found that what `iter_mut().find(..)` lends comes back.
    fn add_refusal(&mut self, why: Refusal) {
        for (refusal, times) in &mut self.refused {
            if *refusal == why {
                *times = times.wrapping_add(1);
            }
        }
    }

    pub fn add_answer<C: Copy>(&mut self, answer: Answer<C>) {
        self.events = self.events.wrapping_add(1);
        match answer {
            Answer::Stands(_) => self.stands = self.stands.wrapping_add(1),
            Answer::Refused(why) => self.add_refusal(why),
            Answer::Moved => self.moved = self.moved.wrapping_add(1),
            Answer::Shown(progress) => {
                self.advances = self.advances.wrapping_add(1);
                self.steps = self.steps.wrapping_add(u64::from(progress.steps));
            }
            Answer::Final(Some(_)) => self.sheets = self.sheets.wrapping_add(1),
            Answer::Final(None) => self.none = self.none.wrapping_add(1),
        }
    }

    pub fn expect(&mut self, is_right: bool) {
        if !is_right {
            self.differences = self.differences.wrapping_add(1);
        }
    }

    pub fn differences(&self) -> u64 {
        self.differences
    }

    // A line for each kind of answer, and for each number of a refusal.
    pub fn print_answers(&self, rt: &HostRuntime) -> io::Result<()> {
        let Tally {
            stands,
            moved,
            advances,
            steps,
            sheets,
            none,
            ..
        } = self;
        println!(rt; "acts called or taken back: {stands}")?;
        println!(rt; "moves to another stage: {moved}")?;
        println!(rt; "advances: {advances}, with {steps} steps")?;
        println!(rt; "settlings: {sheets} with a sheet, {none} with no sheet")?;
        for (refusal, times) in &self.refused {
            let number = refusal.number();
            println!(rt; "refused by {number}: {times}")?;
        }
        Ok(())
    }
}
