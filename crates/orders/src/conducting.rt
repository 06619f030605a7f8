// Orders conducted by lists of calls.
ghost use Rattle.std.specs.Prelude.{◌≡◌, vec_capacity};
ghost use Rattle.orders.specs.Logs.{Conducted};
ghost use Rattle.orders.specs.Models.{room_of};

use crate::calls::{Call, Event};
use crate::marking::Marking;
use crate::stage::Order;
use crate::turns::turn;
use sheets::{Judge, Scale};

// Begins an order over the judge and the scale, takes it through the calls, and adds each with its answer to the log: up
// to the first call that its stage does not have, or to the end of the room that was reserved.
pub fn conduct<J: Judge + Drop, S: Scale + Drop>(
    judge: J,
    scale: S,
    calls: &[Call],
    log: &mut Vec<Event<S::Cost>>,
)
    ensures log { Conducted (J.judging judge) (S.scaling scale) (room_of log.old) calls.now log.old.items log.new.items }
    ensures capacity { vec_capacity log.new ≡ vec_capacity log.old }
{
    let mut order = Order::Marking(Marking::begin(judge, scale));
    for call in calls {
        if log.len() >= log.capacity() {
            return;
        }
        let Some((next, answer)) = turn(order, *call) else {
            return;
        };
        order = next;
        log.push_reserved(Event {
            call: *call,
            answer,
        });
    }
}
