// Marking orders: acts are called and taken back.
ghost use Rattle.std.specs.Prelude.{◌≡◌, []};
ghost use Rattle.orders.specs.declared.acts.Act.TheVariants.{Pin as PinAct, Bar as BarAct, Strike as StrikeAct};
ghost use Rattle.orders.specs.Models.{acts_of, Added, Undone};
ghost use Rattle.orders.specs.Searches.{start};

use crate::acts::{Act, Refusal};
use crate::layer::Acts;
use crate::search::Search;
use crate::seeking::Seeking;
use sheets::{Judge, Mark, Scale, Sheet};

// An order whose acts may still change. A call on them returns how many acts then stand, or why it is refused. Each says
// that the scale stays, since no type says it of one field.
#[derive(Drop)]
pub struct Marking<J, S> {
    // The judge, under the acts that stand.
    pub(crate) acts: Acts<J>,
    // By which the sheets are compared.
    pub(crate) scale: S,
}

impl<J: Judge, S: Scale> Marking<J, S> {
    // An order over the judge and the scale, on which no act stands.
    pub fn begin(judge: J, scale: S) -> Marking<J, S>
        ensures acts { acts_of result.acts ≡ [] }
        ensures judge { result.acts.judge ≡ judge }
        ensures scale { result.scale ≡ scale }
    {
        let acts = Acts::new(judge);
        Marking { acts, scale }
    }

    // The sheets are to have the mark.
    pub fn pin(&mut self, mark: Mark) -> Result<u8, Refusal>
        ensures acts { Added J.judging self.old.acts (PinAct mark) result self.new.acts }
        ensures scale { self.new.scale ≡ self.old.scale }
    {
        self.acts.add(Act::Pin(mark))
    }

    // The sheets are to lack the mark.
    pub fn bar(&mut self, mark: Mark) -> Result<u8, Refusal>
        ensures acts { Added J.judging self.old.acts (BarAct mark) result self.new.acts }
        ensures scale { self.new.scale ≡ self.old.scale }
    {
        self.acts.add(Act::Bar(mark))
    }

    // The sheet is not to be this one.
    pub fn strike(&mut self, sheet: Sheet) -> Result<u8, Refusal>
        ensures acts { Added J.judging self.old.acts (StrikeAct sheet) result self.new.acts }
        ensures scale { self.new.scale ≡ self.old.scale }
    {
        self.acts.add(Act::Strike(sheet))
    }

    // Takes the last act off.
    pub fn undo(&mut self) -> Result<u8, Refusal>
        ensures acts { Undone self.old.acts result self.new.acts }
        ensures scale { self.new.scale ≡ self.old.scale }
    {
        self.acts.undo()
    }

    // Begins a search.
    pub fn seek(self) -> Seeking<J, S>
        ensures search { result.search ≡ start }
        ensures marking { result.marking ≡ self }
    {
        Seeking {
            marking: self,
            search: Search::start(),
        }
    }
}
