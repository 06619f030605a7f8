// Logs with one wrong answer, which must be found: the runs have no difference to show.
use crate::brute::Case;
use crate::follow::follow;
use crate::tally::Tally;
use orders::{Answer, Call, Event, Progress, Refusal};
use sheets::{PartSheet, Sheet};
use std::alloc::{AllocError, Global};

// An advance that comes to a full place.
fn shown(
    most: u16,
    steps: u16,
    finished: bool,
    present: Sheet,
    held: Option<(Sheet, u64)>,
) -> Event<u64> {
    let place = PartSheet::deciding(Sheet::MAX, present);
    let progress = Progress {
        steps,
        finished,
        place,
        held,
    };
    Event {
        call: Call::Advance(most),
        answer: Answer::Shown(progress),
    }
}

// A call with the answer.
fn event(call: Call, answer: Answer<u64>) -> Event<u64> {
    Event { call, answer }
}

// How many differences are counted of the log, where all sheets of two marks are allowed but the one with both. The empty one
// costs 0, that with mark 0 costs 1, and that with mark 1 costs 2.
fn differences_of(heap: Global, log: &[Event<u64>]) -> Result<u64, AllocError> {
    let case = Case {
        count: 2,
        allowed: vec![in heap; 0, 1, 2]?,
        first: 3,
        second: 0,
    };
    let mut tally = Tally::new();
    follow(heap, &case, log, &mut tally)?;
    Ok(tally.differences())
}

// In how many of the logs just one difference is found.
fn print_found(rt: &HostRuntime, name: &str, logs: &[&[Event<u64>]]) -> anyhow::Result<()> {
    let mut found = 0u64;
    for log in logs {
        let is_found = differences_of(rt.alloc(), log)? == 1;
        found = found.wrapping_add(u64::from(is_found));
    }
    let count = logs.len();
    println!(rt; "{name}: {found} of {count} found")?;
    Ok(())
}

fn run_right_log(rt: &HostRuntime) -> anyhow::Result<()> {
    let log = [
        event(Call::Pin(0), Answer::Stands(1)),
        event(Call::Pin(0), Answer::Refused(Refusal::MarkTaken)),
        event(Call::Undo, Answer::Stands(0)),
        event(Call::Seek, Answer::Moved),
        shown(2, 2, false, 1, Some((0, 0))),
        shown(2, 1, true, 0, Some((0, 0))),
        event(Call::Settle, Answer::Final(Some((0, 0)))),
    ];
    let differences = differences_of(rt.alloc(), &log)?;
    println!(rt; "a right log: {differences} differences")?;
    Ok(())
}

fn run_wrong_answers(rt: &HostRuntime) -> anyhow::Result<()> {
    let refused = Answer::Refused(Refusal::MarkTaken);
    print_found(
        rt,
        "wrong answers",
        &[
            &[event(Call::Pin(0), Answer::Stands(2))],
            &[event(Call::Seek, Answer::Stands(0))],
            &[event(Call::Pin(2), refused)],
        ],
    )
}

fn run_wrong_settlings(rt: &HostRuntime) -> anyhow::Result<()> {
    let dear = Answer::Final(Some((1, 1)));
    let other_cost = Answer::Final(Some((0, 1)));
    print_found(
        rt,
        "wrong settlings",
        &[
            &[event(Call::Settle, Answer::Final(None))],
            &[event(Call::Settle, dear)],
            &[event(Call::Settle, other_cost)],
        ],
    )
}

// Too few steps; more than were called; an end on the dearer sheet; a cheaper sheet before the place, and one where none is
// held, which differs from the place in mark 0 or in mark 1; a sheet that does not keep the acts; a wrong cost.
fn run_wrong_advances(rt: &HostRuntime) -> anyhow::Result<()> {
    let pinned = event(Call::Pin(0), Answer::Stands(1));
    print_found(
        rt,
        "wrong advances",
        &[
            &[shown(2, 1, false, 0, None)],
            &[shown(1, 2, false, 0, None)],
            &[shown(3, 3, true, 0, Some((1, 1)))],
            &[shown(2, 2, false, 1, Some((1, 1)))],
            &[shown(2, 2, false, 1, None)],
            &[shown(2, 2, false, 2, None)],
            &[pinned, shown(2, 2, false, 0, Some((0, 0)))],
            &[shown(2, 2, false, 0, Some((1, 0)))],
        ],
    )
}

// A cost that rises, and one that is lost.
fn run_rises(rt: &HostRuntime) -> anyhow::Result<()> {
    let cheap = shown(0, 0, false, 0, Some((0, 0)));
    print_found(
        rt,
        "rising costs",
        &[
            &[cheap, shown(0, 0, false, 0, Some((1, 1)))],
            &[cheap, shown(0, 0, false, 0, None)],
        ],
    )
}

// A line for each kind of fault.
pub fn run_wrong_logs(rt: &HostRuntime) -> anyhow::Result<()> {
    run_right_log(rt)?;
    run_wrong_answers(rt)?;
    run_wrong_settlings(rt)?;
    run_wrong_advances(rt)?;
    run_rises(rt)
}
