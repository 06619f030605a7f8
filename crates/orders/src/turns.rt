// One call on an order at any stage.
ghost use Rattle.std.specs.Prelude.{◌≡◌};
ghost use Rattle.orders.specs.declared.stage.Order.TheVariants.{Marking as MarkingOrder, Seeking as SeekingOrder, Settled as SettledOrder};
ghost use Rattle.orders.specs.Logs.{answer_of};
ghost use Rattle.orders.specs.Turns.{CallAnswered};

use crate::acts::Refusal;
use crate::calls::{Answer, Call};
use crate::marking::Marking;
use crate::seeking::Seeking;
use crate::settled::Settled;
use crate::stage::Order;
use sheets::{Judge, Scale};

// What a call on the acts returned, as an answer.
impl<C> From<Result<u8, Refusal>> for Answer<C> {
    ghost from_gives = { λ returned answer. answer ≡ answer_of returned };

    fn from(returned: Result<u8, Refusal>) -> Self {
        match returned {
            Ok(count) => Answer::Stands(count),
            Err(why) => Answer::Refused(why),
        }
    }
}

// A call on a marking order, as `turn` has it.
fn marking_turn<J: Judge + Drop, S: Scale + Drop>(
    mut marking: Marking<J, S>,
    call: Call,
) -> Option<(Order<J, S>, Answer<S::Cost>)>
    ensures { CallAnswered J.judging S.scaling (MarkingOrder marking) call result }
{
    let returned = match call {
        Call::Pin(mark) => marking.pin(mark),
        Call::Bar(mark) => marking.bar(mark),
        Call::Strike(sheet) => marking.strike(sheet),
        Call::Undo => marking.undo(),
        Call::Seek => return Some((Order::Seeking(marking.seek()), Answer::Moved)),
        _ => return None,
    };
    Some((Order::Marking(marking), returned.into()))
}

// A call on a seeking order, as `turn` has it.
fn seeking_turn<J: Judge + Drop, S: Scale + Drop>(
    mut seeking: Seeking<J, S>,
    call: Call,
) -> Option<(Order<J, S>, Answer<S::Cost>)>
    ensures { CallAnswered J.judging S.scaling (SeekingOrder seeking) call result }
{
    match call {
        Call::Advance(most) => {
            let progress = seeking.advance(most);
            Some((Order::Seeking(seeking), Answer::Shown(progress)))
        }
        Call::Settle => {
            let settled = seeking.settle();
            let answer = Answer::Final(settled.answer());
            Some((Order::Settled(settled), answer))
        }
        Call::Withdraw => Some((Order::Marking(seeking.withdraw()), Answer::Moved)),
        _ => None,
    }
}

// A call on a settled order, as `turn` has it.
fn settled_turn<J: Judge + Drop, S: Scale + Drop>(
    settled: Settled<J, S>,
    call: Call,
) -> Option<(Order<J, S>, Answer<S::Cost>)>
    ensures { CallAnswered J.judging S.scaling (SettledOrder settled) call result }
{
    match call {
        Call::Reopen => Some((Order::Marking(settled.reopen()), Answer::Moved)),
        _ => None,
    }
}

// What the call leads to, with its answer; nothing where the stage of the order does not have the call. Calls are data,
// which lists hold and promises speak of, so they are matched and are no closures; and each stage has calls of its own.
pub(crate) fn turn<J: Judge + Drop, S: Scale + Drop>(
    order: Order<J, S>,
    call: Call,
) -> Option<(Order<J, S>, Answer<S::Cost>)>
    ensures { CallAnswered J.judging S.scaling order call result }
{
    match order {
        Order::Marking(marking) => marking_turn(marking, call),
        Order::Seeking(seeking) => seeking_turn(seeking, call),
        Order::Settled(settled) => settled_turn(settled, call),
    }
}
