// The acts of an order, in its docket, and the calls on them.
ghost use Rattle.std.specs.Prelude.{◌≡◌, ◌≤◌, [], length, if◌then◌else◌, true, Some, None, nat_le};
ghost use Rattle.std.specs.List.{list_all, list_any};
ghost use Rattle.std.specs.Result.{result_err};
ghost use Rattle.sheets.specs.Sheets.{width};
ghost use Rattle.orders.specs.declared.acts.Act.TheVariants.{Pin as PinAct, Strike as StrikeAct};
ghost use Rattle.orders.specs.declared.acts.Refusal.TheVariants.{DocketFull};
ghost use Rattle.orders.specs.Acts.{most_acts, pins_or_bars, strikes, is_broken_by, in_range};
ghost use Rattle.orders.specs.Dockets.{refused_act, after_act, undo_refused, after_undo, returned};

use crate::act_list::ActList;
use crate::acts::{Act, Refusal};
use sheets::{Mark, PartSheet, Sheet, within_count};

// The acts that stand, in the order in which they were called. They name only marks that there are.
#[derive(Drop)]
pub(crate) struct Docket {
    pub(crate) acts: ActList,
    ghost ranges: { list_all in_range acts ≡ true },
}

impl Docket {
    // No act stands.
    pub(crate) fn new() -> Docket
        ensures { result.acts ≡ [] }
    {
        Docket {
            acts: ActList::new(),
        }
    }

    // How many acts stand.
    fn count(&self) -> u8
        ensures { result ≡ length self.now.acts }
    {
        self.acts.len()
    }

    // An act that stands calls the part-sheet dead.
    pub(crate) fn calls_dead(&self, part: PartSheet) -> bool
        ensures { result ≡ list_any (is_broken_by part.present part.absent) self.now.acts }
    {
        self.acts
            .as_slice()
            .iter()
            .any(|act| act.is_broken_by(part))
    }

    // An act that stands pins or bars the mark.
    fn is_named(&self, mark: Mark) -> bool
        ensures { result ≡ list_any (pins_or_bars mark) self.now.acts }
    {
        self.acts
            .as_slice()
            .iter()
            .any(|act| act.pins_or_bars(mark))
    }

    // An act that stands strikes the sheet.
    fn is_struck(&self, sheet: Sheet) -> bool
        ensures { result ≡ list_any (strikes sheet) self.now.acts }
    {
        self.acts.as_slice().iter().any(|act| act.strikes(sheet))
    }

    // Refuses one act more where as many stand as can.
    fn check_room(&self) -> Result<(), Refusal>
        ensures { result_err result ≡ (if nat_le most_acts (length self.now.acts) then Some DocketFull else None) }
    {
        if self.acts.is_full() {
            return Err(Refusal::DocketFull);
        }
        Ok(())
    }

    // Refuses a pin or a bar of the mark by the first refusal that applies.
    fn check_mark(&self, count: u8, mark: Mark) -> Result<(), Refusal>
        ensures { result_err result ≡ refused_act count self.now.acts (PinAct mark) }
    {
        if mark >= count {
            return Err(Refusal::MarkRange);
        }
        if self.is_named(mark) {
            return Err(Refusal::MarkTaken);
        }
        self.check_room()
    }

    // Refuses a strike of the sheet by the first refusal that applies. Its questions and refusals are others than a mark's.
    fn check_sheet(&self, count: u8, sheet: Sheet) -> Result<(), Refusal>
        ensures { result_err result ≡ refused_act count self.now.acts (StrikeAct sheet) }
    {
        if !within_count(sheet, count) {
            return Err(Refusal::MarkRange);
        }
        if self.is_struck(sheet) {
            return Err(Refusal::SheetStruck);
        }
        self.check_room()
    }

    // Refuses the act by the first refusal that applies.
    fn check_act(&self, count: u8, act: Act) -> Result<(), Refusal>
        ensures { result_err result ≡ refused_act count self.now.acts act }
    {
        match act {
            Act::Pin(mark) | Act::Bar(mark) => self.check_mark(count, mark),
            Act::Strike(sheet) => self.check_sheet(count, sheet),
        }
    }

    // Adds the act at the end, unless it is refused; returns how many acts then stand.
    pub(crate) fn add(&mut self, count: u8, act: Act) -> Result<u8, Refusal>
        requires { count ≤ width }
        ensures answer { result ≡ returned (refused_act count self.old.acts act) self.new.acts }
        ensures after { self.new.acts ≡ after_act count self.old.acts act }
    {
        self.check_act(count, act)?;
        self.acts.push(act);
        Ok(self.count())
    }

    // Takes the last act off; returns how many acts then stand.
    pub(crate) fn undo(&mut self) -> Result<u8, Refusal>
        ensures answer { result ≡ returned (undo_refused self.old.acts) self.new.acts }
        ensures after { self.new.acts ≡ after_undo self.old.acts }
    {
        self.acts.pop().ok_or(Refusal::DocketEmpty)?;
        Ok(self.count())
    }
}
