// An order that is taken by the calls of its stages, and not by a list of calls.
ghost use Rattle.std.specs.Prelude.{[]};
ghost use Rattle.orders.specs.declared.acts.Act.TheVariants.{Pin as PinAct};
ghost use Rattle.orders.specs.Acts.{under};
ghost use Rattle.orders.specs.Dockets.{after_act};
ghost use Rattle.orders.specs.Best.{Best};

use orders::Marking;
use sheets::{Judge, Mark, Scale, Sheet};

// After so many advances the order is settled, however far its search is.
const MOST_ADVANCES: u8 = 100;

// The cheapest sheet with the mark, or without any act where the pin is refused: the search is advanced by so many steps at
// a time, and then settled. That the answer is the best follows from what the calls promise of every order.
pub fn settle_by_advances<J: Judge + Drop, S: Scale + Drop>(
    judge: J,
    scale: S,
    mark: Mark,
    most: u16,
) -> Option<(Sheet, S::Cost)>
    ensures { Best (under (J.judging judge) (after_act (J.judging judge).count [] (PinAct mark))) (S.scaling scale) result }
{
    let mut marking = Marking::begin(judge, scale);
    let _ = marking.pin(mark);
    let mut seeking = marking.seek();
    for _ in 0..MOST_ADVANCES {
        if seeking.advance(most).finished {
            break;
        }
    }
    seeking.settle().answer()
}
