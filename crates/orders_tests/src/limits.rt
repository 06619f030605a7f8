// Orders at the most marks and the most acts, and a log whose room ends early.
use crate::number::Number;
use crate::table::{Table, table_of};
use orders::{Answer, Call, Event, conduct};
use sheets::Sheet;
use std::alloc::{AllocError, Global};
use std::fmt;
use std::fmt::Formatter;

const LAST_MARK: Sheet = 1 << 63;

fn wide_table(heap: Global) -> anyhow::Result<Table> {
    table_of(heap, 64, &[0, LAST_MARK, LAST_MARK | 1 << 40, Sheet::MAX])
}

// 32 acts that stand, by way of one that is refused.
fn full_calls(heap: Global) -> Result<Vec<Call>, AllocError> {
    let mut calls = vec![in heap; Call::Pin(63), Call::Pin(64)]?;
    calls.extend((0..31u8).map(Call::Bar))?;
    Ok(calls)
}

// What follows: refused by each number that can still be, and settled.
const LAST_CALLS: [Call; 14] = [
    Call::Bar(31),
    Call::Pin(63),
    Call::Bar(64),
    Call::Strike(0),
    Call::Undo,
    Call::Strike(LAST_MARK),
    Call::Strike(LAST_MARK),
    Call::Seek,
    Call::Advance(3),
    Call::Settle,
    Call::Reopen,
    Call::Undo,
    Call::Seek,
    Call::Settle,
];

// An event as the line that is printed of it.
#[derive(Clone, Copy)]
struct Line(Event<u64>);

impl fmt::Display for Line {
    fn fmt<W: fmt::Write>(&self, f: &mut Formatter<W>) -> fmt::Result {
        let Event { call, answer } = self.0;
        write!(f, "count 64, {call:?}: ")?;
        match answer {
            Answer::Stands(count) => write!(f, "acts that stand: {count}"),
            Answer::Refused(why) => {
                let number = why.number();
                write!(f, "refused by {number}")
            }
            Answer::Moved => write!(f, "another stage"),
            Answer::Shown(progress) => {
                let steps = progress.steps;
                write!(f, "{steps} steps")
            }
            Answer::Final(Some((sheet, cost))) => write!(f, "sheet {sheet}, cost {cost}"),
            Answer::Final(None) => write!(f, "no sheet"),
        }
    }
}

pub fn run_limits(rt: &HostRuntime) -> anyhow::Result<()> {
    let heap = rt.alloc();
    let mut calls = full_calls(heap)?;
    calls.extend_from_slice(&LAST_CALLS)?;
    let mut log = Vec::with_capacity(heap, calls.len())?;
    let judge = wide_table(heap)?;
    conduct(judge, Number::new(Sheet::MAX), calls.as_slice(), &mut log);
    for (at, event) in log.iter().enumerate() {
        // Of the acts between, only the last.
        if !(2..=31).contains(&at) {
            let line = Line(*event);
            println!(rt; "{line}")?;
        }
    }
    Ok(())
}

pub fn run_room(rt: &HostRuntime) -> anyhow::Result<()> {
    let heap = rt.alloc();
    let calls = full_calls(heap)?;
    let mut log = Vec::with_capacity(heap, 5)?;
    let judge = wide_table(heap)?;
    conduct(judge, Number::new(Sheet::MAX), calls.as_slice(), &mut log);
    let count = calls.len();
    let room = log.capacity();
    let events = log.len();
    println!(rt; "{count} calls, room for {room}: {events} events")?;
    Ok(())
}
