// The acts of an order, as a judge over the one below.
ghost use Rattle.std.specs.Prelude.{◌≡◌, []};
ghost use Rattle.orders.specs.Models.{acts_of, held_to, Added, Undone};
ghost use Rattle.orders.specs.laws.Under.{under_laws};

use crate::acts::{Act, Refusal};
use crate::docket::Docket;
use sheets::{Judge, PartSheet};

// Allows what the judge below allows and the acts leave.
#[derive(Drop)]
pub struct Acts<J> {
    // The judge below.
    pub(crate) judge: J,
    // The acts that stand.
    pub(crate) docket: Docket,
}

impl<J: Judge> Acts<J> {
    // No act stands over the judge.
    pub(crate) fn new(judge: J) -> Acts<J>
        ensures judge { result.judge ≡ judge }
        ensures acts { acts_of result ≡ [] }
    {
        let docket = Docket::new();
        Acts { judge, docket }
    }

    // Adds the act at the end, unless it is refused; returns how many acts then stand.
    pub(crate) fn add(&mut self, act: Act) -> Result<u8, Refusal>
        ensures { Added J.judging self.old act result self.new }
    {
        let count = self.count();
        self.docket.add(count, act)
    }

    // Takes the last act off; returns how many acts then stand.
    pub(crate) fn undo(&mut self) -> Result<u8, Refusal>
        ensures { Undone self.old result self.new }
    {
        self.docket.undo()
    }
}

impl<J: Judge> Judge for Acts<J> {
    ghost judging = { held_to J.Judge.judging };

    ghost keeps_laws = { λ a. under_laws (J.Judge.judging a.judge) (acts_of a) a.docket.ranges (J.Judge.keeps_laws a.judge) };

    // The count of the judge below.
    fn count(&self) -> u8 {
        self.judge.count()
    }

    // The judge below calls the part-sheet dead, or an act does.
    fn dead(&self, part: PartSheet) -> bool {
        self.judge.dead(part) || self.docket.calls_dead(part)
    }
}
