// Orders over a judge with a ceiling, conducted by lists of calls.
ghost use Rattle.std.specs.Prelude.{◌≡◌, vec_capacity};
ghost use Rattle.orders.specs.Models.{room_of};
ghost use Rattle.ceilings.specs.CutOff.{ConductedBelow};

use orders::{Call, Event, conduct};
use sheets::{Ceiling, Judge, Scale};

// Conducts an order over the judge, of which no sheet costs more than the ceiling by the order's scale.
pub fn conduct_below<J: Judge + Drop, S: Scale>(
    judge: J,
    scale: &S,
    ceiling: S::Cost,
    calls: &[Call],
    log: &mut Vec<Event<S::Cost>>,
)
    ensures log { ConductedBelow (J.judging judge) (S.scaling scale.now) ceiling (room_of log.old) calls.now log.old.items log.new.items }
    ensures capacity { vec_capacity log.new ≡ vec_capacity log.old }
{
    let limited = Ceiling {
        judge,
        scale,
        ceiling,
    };
    conduct(limited, scale, calls, log);
}
