// Conducts orders over tables and numbers by long lists of calls, and holds every answer to rules of the program's own:
// the docket kept as a plain list, and the best sheet found by going through all of them.
#![tactic(auto)]

mod brute;
mod direct;
mod follow;
mod ledger;
mod limits;
mod number;
mod random;
mod runs;
mod script;
mod table;
mod tally;
mod wrong_logs;

use limits::{run_limits, run_room};
use runs::{run_directly, run_many};
use wrong_logs::run_wrong_logs;

// Where the generator begins.
const SEED: u64 = 5;

fn run(rt: &HostRuntime) -> anyhow::Result<()> {
    let tally = run_many(rt, SEED)?;
    tally.print_answers(rt)?;
    run_limits(rt)?;
    run_room(rt)?;
    run_directly(rt, SEED)?;
    run_wrong_logs(rt)
}

fn main(rt: HostRuntime) -> anyhow::Result<()> {
    run(&rt)
}
