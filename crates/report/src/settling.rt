// The order of a report: over both book and list, by levels then distance, after the acts of the file.
ghost use Rattle.std.specs.Prelude.{◌≡◌, IfOk, Ok};
ghost use Rattle.std.specs.Rc.{rc_value};
ghost use Rattle.rulefile.specs.Answers.{file_of};
ghost use Rattle.report.specs.Lines.{call_of};
ghost use Rattle.report.specs.Logs.{calls_for, log_text, IsOrderText};
ghost use Rattle.report.specs.Reports.{ReportThatFits};

use judges::{Book, PrinterList};
use orders::{Call, Event, conduct};
use rulefile::{Act, RuleFile};
use scales::{Distance, LevelCost, Levels};
use sheets::{Both, FirstThen, Judge, Scale};
use std::alloc::{AllocError, Global};
use std::rc::Rc;

// The cost of a report's order: levels, then distance.
pub(crate) type Cost = (LevelCost, u32);

// Neither type is this crate's, so no `From` can stand here.
fn to_call(act: Act) -> Call
    ensures { result ≡ call_of act }
{
    match act {
        Act::Pin(mark) => Call::Pin(mark),
        Act::Bar(mark) => Call::Bar(mark),
        Act::Strike(sheet) => Call::Strike(sheet),
        Act::Undo => Call::Undo,
    }
}

// The acts, and then a search to its end.
pub(crate) fn calls_after(heap: Global, acts: &[Act]) -> Result<Vec<Call>, AllocError>
    ensures { IfOk result (λ calls. calls.items ≡ calls_for acts.now) }
{
    acts.iter()
        .map(|act| to_call(*act))
        .chain([Call::Seek, Call::Settle])
        .collect(heap)
}

// Both book and list of the file.
pub(crate) fn judge_of_file(file: &Rc<RuleFile>) -> Result<Both<Book, PrinterList>, AllocError>
    ensures book { IfOk result (λ judge. file_of (rc_value judge.first.file) ≡ file_of (rc_value file.now)) }
    ensures list { IfOk result (λ judge. file_of (rc_value judge.second.file) ≡ file_of (rc_value file.now)) }
{
    Ok(Both {
        first: Book::new(file.clone()?),
        second: PrinterList::new(file.clone()?),
    })
}

// Levels, then distance, of the file.
pub(crate) fn scale_of_file(file: &Rc<RuleFile>) -> Result<FirstThen<Levels, Distance>, AllocError>
    ensures levels { IfOk result (λ scale. file_of (rc_value scale.first.file) ≡ file_of (rc_value file.now)) }
    ensures house { IfOk result (λ scale. scale.then.house ≡ (file_of (rc_value file.now)).house) }
{
    Ok(FirstThen {
        first: Levels::new(file.clone()?),
        then: Distance::new(file.house),
    })
}

// The log of the order over any judge that settles after the acts.
fn order_log<J: Judge + Drop>(
    heap: Global,
    judge: J,
    scale: FirstThen<Levels, Distance>,
    acts: &[Act],
) -> Result<Vec<Event<Cost>>, AllocError>
    ensures { IfOk result (λ log. IsOrderText (J.judging judge) (⟦<FirstThen<Levels, Distance> as Scale>⟧.scaling scale) acts.now (log_text log.items)) }
{
    let calls = calls_after(heap, acts)?;
    let mut log = Vec::with_capacity(heap, calls.len())?;
    conduct(judge, scale, calls.as_slice(), &mut log);
    Ok(log)
}

// The log of the order that settles after the acts of the file: its text is the report.
pub(crate) fn settled_log(heap: Global, file: RuleFile) -> Result<Vec<Event<Cost>>, AllocError>
    ensures { IfOk result (λ log. ReportThatFits (Ok (file_of file)) (log_text log.items)) }
{
    let shared = Rc::new(heap, file)?;
    let judge = judge_of_file(&shared)?;
    let scale = scale_of_file(&shared)?;
    order_log(heap, judge, scale, shared.acts.as_slice())
}
