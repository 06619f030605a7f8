// The calls on an order, and their answers.
use crate::acts::Refusal;
use sheets::{Mark, PartSheet, Sheet};

// A call on an order. Each stage has its own calls.
#[derive(Clone, Copy, Debug, PartialEq, Eq)]
pub enum Call {
    // Marking: the sheets are to have the mark.
    Pin(Mark),
    // Marking: the sheets are to lack the mark.
    Bar(Mark),
    // Marking: the sheet is not to be this one.
    Strike(Sheet),
    // Marking: takes the last act off.
    Undo,
    // Marking: begins a search.
    Seek,
    // Seeking: takes so many steps, or those that remain if fewer.
    Advance(u16),
    // Seeking: takes the steps that remain.
    Settle,
    // Seeking: leaves the search.
    Withdraw,
    // Settled: leaves the sheet.
    Reopen,
}

// What an advance returns.
#[derive(Clone, Copy, Debug, PartialEq, Eq)]
pub struct Progress<C> {
    // How many steps it took.
    pub steps: u16,
    // Whether the search is finished. The place and the sheet are shown in both cases.
    pub finished: bool,
    // The place of the search.
    pub place: PartSheet,
    // The sheet that is held with its cost, if there is one.
    pub held: Option<(Sheet, C)>,
}

// What a call is answered.
#[derive(Clone, Copy, Debug, PartialEq, Eq)]
pub enum Answer<C> {
    // So many acts stand.
    Stands(u8),
    // The call is refused.
    Refused(Refusal),
    // The order is at another stage.
    Moved,
    // An advance shows this.
    Shown(Progress<C>),
    // The settled sheet with its cost, or no sheet.
    Final(Option<(Sheet, C)>),
}

// A call with its answer.
#[derive(Clone, Copy, Debug, PartialEq, Eq)]
pub struct Event<C> {
    pub call: Call,
    pub answer: Answer<C>,
}
