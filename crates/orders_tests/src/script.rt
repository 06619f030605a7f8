// Lists of calls, by chance. Numbers that are drawn are matched: they are chances, and each arm draws on.
use crate::random::Random;
use orders::Call;
use sheets::{Mark, Sheet, first_marks, with_mark};
use std::alloc::{AllocError, Global};

#[derive(Clone, Copy)]
enum Stage {
    Marking,
    Seeking,
    Settled,
}

impl Stage {
    // The stage after the call.
    fn after(self, call: Call) -> Stage {
        match call {
            Call::Seek => Stage::Seeking,
            Call::Settle => Stage::Settled,
            Call::Withdraw | Call::Reopen => Stage::Marking,
            _ => self,
        }
    }
}

// Draws the calls of an order over sheets of marks below the count. The more undos, the fewer acts stand.
#[derive(Drop)]
struct Writer<'a> {
    random: &'a mut Random,
    count: u8,
    undos: u8,
    stage: Stage,
}

impl Writer<'_> {
    // Now and then a mark that is not below the count.
    fn draw_mark(&mut self) -> Mark {
        if self.random.small(10) == 0 {
            self.random.small(70).saturating_add(self.count)
        } else {
            self.random.small(self.count)
        }
    }

    // Now and then a sheet with such a mark.
    fn draw_sheet(&mut self) -> Sheet {
        let sheet = self.random.next() & first_marks(self.count);
        if self.random.small(10) == 0 {
            with_mark(sheet, self.count)
        } else {
            sheet
        }
    }

    fn marking_call(&mut self) -> Call {
        match self.random.small(self.undos.saturating_add(10)) {
            0 => Call::Pin(self.draw_mark()),
            1 => Call::Bar(self.draw_mark()),
            2..=7 => Call::Strike(self.draw_sheet()),
            8 | 9 => Call::Seek,
            _ => Call::Undo,
        }
    }

    fn seeking_call(&mut self) -> Call {
        match self.random.small(8) {
            0..=2 => Call::Settle,
            3 => Call::Withdraw,
            _ => Call::Advance(u16::from(self.random.small(12))),
        }
    }

    // A call that the stage has.
    fn next_call(&mut self) -> Call {
        let call = match self.stage {
            Stage::Marking => self.marking_call(),
            Stage::Seeking => self.seeking_call(),
            Stage::Settled => Call::Reopen,
        };
        self.stage = self.stage.after(call);
        call
    }

    // A call that the stage does not have.
    fn foreign_call(&mut self) -> Call {
        match (self.stage, self.random.small(2)) {
            (Stage::Marking, 0) => Call::Settle,
            (Stage::Marking, _) => Call::Reopen,
            (Stage::Seeking, 0) => Call::Pin(0),
            (Stage::Seeking, _) => Call::Seek,
            (Stage::Settled, 0) => Call::Undo,
            (Stage::Settled, _) => Call::Advance(1),
        }
    }
}

// A list of calls, and how many of them come before the first that its stage does not have.
#[derive(Drop)]
pub struct Script {
    pub calls: Vec<Call>,
    pub answered: usize,
}

impl Script {
    // Fewer than 300 calls; now and then followed by one that the stage does not have, and two more.
    pub fn draw(heap: Global, random: &mut Random, count: u8) -> Result<Script, AllocError> {
        let length = random.below(300);
        let undos = random.small(6);
        let mut writer = Writer {
            random,
            count,
            undos,
            stage: Stage::Marking,
        };
        let mut calls: Vec<Call> = (0..length).map(|_| writer.next_call()).collect(heap)?;
        let answered = calls.len();
        if writer.random.small(4) == 0 {
            calls.extend_from_slice(&[writer.foreign_call(), Call::Seek, Call::Undo])?;
        }
        Ok(Script { calls, answered })
    }
}
