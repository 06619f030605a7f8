// A log, event by event, against the rules of the docket and all sheets.
use crate::brute::{Case, Cost, OpenSheets};
use crate::ledger::{Ledger, number_of};
use crate::tally::Tally;
use orders::{Answer, Call, Event, Progress, Refusal};
use sheets::Sheet;
use std::alloc::{AllocError, Global};

// A sheet that is shown, with its cost as the program's own.
fn with_cost<C: Into<Cost>>(held: Option<(Sheet, C)>) -> Option<(Sheet, Cost)> {
    held.map(|(sheet, cost)| (sheet, cost.into()))
}

// The cost that is shown.
fn cost_of(held: Option<(Sheet, Cost)>) -> Option<Cost> {
    held.map(|(_, cost)| cost)
}

// The second cost is not above the first, and a cost that was shown is not lost.
fn is_no_rise(before: Option<Cost>, after: Option<Cost>) -> bool {
    before.is_none_or(|old| after.is_some_and(|new| new <= old))
}

// What an advance returns is right: the steps are so many, or the search is finished; a finished search holds the best sheet;
// nothing cheaper lies before the place; the sheet that is held is left open, and has the cost that is shown.
fn is_progress_right<C: Copy + Into<Cost>>(
    open: OpenSheets<'_>,
    most: u16,
    progress: Progress<C>,
) -> bool {
    let held = with_cost(progress.held);
    let is_counted = progress.steps <= most && (progress.steps == most || progress.finished);
    let is_ended = !progress.finished || held == open.best();
    let is_nothing_missed = !open.is_missed(progress.place, cost_of(held));
    let is_open = held.is_none_or(|(sheet, cost)| open.has(sheet) && cost == open.case.cost(sheet));
    is_counted && is_ended && is_nothing_missed && is_open
}

// The answer is the expected one: so many acts, a refusal that also has the right number, or none at another stage.
fn is_expected<C: Copy>(expected: Option<Result<usize, Refusal>>, answer: Answer<C>) -> bool {
    match (expected, answer) {
        (Some(Ok(count)), Answer::Stands(stand)) => count == usize::from(stand),
        (Some(Err(refusal)), Answer::Refused(why)) => {
            why == refusal && why.number() == number_of(refusal)
        }
        (None, Answer::Moved) => true,
        _ => false,
    }
}

// What is known of an order, by means of the program's own, after some of its events.
#[derive(Drop)]
struct Follower<'a> {
    case: &'a Case,
    ledger: Ledger,
    // The cost that the last event showed.
    shown: Option<Cost>,
}

impl Follower<'_> {
    fn open(&self) -> OpenSheets<'_> {
        OpenSheets {
            case: self.case,
            acts: self.ledger.acts(),
        }
    }

    // Takes the next event; returns whether its answer is right.
    fn take<C: Copy + Into<Cost>>(&mut self, event: Event<C>) -> Result<bool, AllocError> {
        let before = self.shown.take();
        match (event.call, event.answer) {
            (Call::Advance(most), Answer::Shown(progress)) => {
                self.shown = cost_of(with_cost(progress.held));
                let right = is_progress_right(self.open(), most, progress);
                Ok(right && is_no_rise(before, self.shown))
            }
            (Call::Settle, Answer::Final(held)) => {
                let held = with_cost(held);
                Ok(is_no_rise(before, cost_of(held)) && held == self.open().best())
            }
            (call, answer) => Ok(is_expected(self.ledger.take(call)?, answer)),
        }
    }
}

// Compares each answer of the log with what is expected of it, and adds it to the tally.
pub fn follow<C: Copy + Into<Cost>>(
    heap: Global,
    case: &Case,
    log: &[Event<C>],
    tally: &mut Tally,
) -> Result<(), AllocError> {
    let mut follower = Follower {
        case,
        ledger: Ledger::new(heap, case.count),
        shown: None,
    };
    for event in log {
        tally.add_answer(event.answer);
        tally.expect(follower.take(*event)?);
    }
    Ok(())
}
