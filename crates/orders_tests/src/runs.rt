// Orders over tables and numbers that are drawn by chance.
use crate::brute::{Case, Cost, OpenSheets};
use crate::direct::settle_by_advances;
use crate::follow::follow;
use crate::number::Number;
use crate::random::Random;
use crate::script::Script;
use crate::table::{Table, table_of};
use crate::tally::Tally;
use orders::{Act, conduct};
use sheets::{Both, FirstThen, Judge, Scale, Sheet, first_marks};
use std::alloc::{AllocError, Global};

// What runs are drawn with, and what is counted of them.
#[derive(Drop)]
struct Runs {
    heap: Global,
    random: Random,
    tally: Tally,
}

impl Runs {
    // From 1 to 6, and more often a large one.
    fn draw_count(&mut self) -> u8 {
        let random = &mut self.random;
        random.small(6).max(random.small(6)).saturating_add(1)
    }

    // Each sheet of marks below the count with the same chance.
    fn draw_sheets(&mut self, count: u8) -> Result<Vec<Sheet>, AllocError> {
        let random = &mut self.random;
        let seldom = random.below(6).saturating_add(1);
        (0..=first_marks(count))
            .filter(|_| random.below(seldom) == 0)
            .collect(self.heap)
    }

    // Conducts an order over the judge and the scale, and holds it against the case. One run in eight has too little room
    // for its calls.
    fn run_order<J: Judge + Drop, S: Scale + Drop>(
        &mut self,
        judge: J,
        scale: S,
        case: &Case,
    ) -> Result<(), AllocError>
    where
        S::Cost: Into<Cost>,
    {
        let script = Script::draw(self.heap, &mut self.random, case.count)?;
        let calls = script.calls.as_slice();
        let share = if self.random.small(8) == 0 { 2 } else { 1 };
        let mut log = Vec::with_capacity(self.heap, calls.len() / share)?;
        let room = log.capacity();
        conduct(judge, scale, calls, &mut log);
        self.tally.add_run(calls.len());
        self.tally.expect(log.len() == script.answered.min(room));
        follow(self.heap, case, log.as_slice(), &mut self.tally)
    }

    // A table, and the number of the sheet.
    fn run_table(&mut self) -> anyhow::Result<()> {
        let count = self.draw_count();
        let allowed = self.draw_sheets(count)?;
        let judge = table_of(self.heap, count, allowed.as_slice())?;
        let first = self.random.below(64);
        let case = Case {
            count,
            allowed,
            first,
            second: 0,
        };
        self.run_order(judge, Number::new(first), &case)?;
        Ok(())
    }

    // Two tables, and two numbers of which the first is compared before the second.
    fn run_both(&mut self) -> anyhow::Result<()> {
        let count = self.draw_count();
        let wider = self.random.small(2).saturating_add(count);
        let some = self.draw_sheets(count)?;
        let others = self.draw_sheets(wider)?;
        let judge = Both {
            first: table_of(self.heap, count, some.as_slice())?,
            second: table_of(self.heap, wider, others.as_slice())?,
        };
        let allowed = some
            .iter()
            .copied()
            .filter(|sheet| others.contains(sheet))
            .collect(self.heap)?;
        let first = self.random.below(64);
        let second = self.random.below(64);
        let scale = FirstThen {
            first: Number::new(first),
            then: Number::new(second),
        };
        let case = Case {
            count,
            allowed,
            first,
            second,
        };
        self.run_order(judge, scale, &case)?;
        Ok(())
    }
}

impl Runs {
    // An order over a table, with a mark pinned that may be one too high, by its own calls.
    fn run_direct(&mut self) -> anyhow::Result<()> {
        let count = self.draw_count();
        let allowed = self.draw_sheets(count)?;
        let judge = table_of(self.heap, count, allowed.as_slice())?;
        let first = self.random.below(64);
        let mark = self.random.small(count.saturating_add(1));
        let steps = self.random.small(9);
        let answer = settle_by_advances(judge, Number::new(first), mark, u16::from(steps));
        let case = Case {
            count,
            allowed,
            first,
            second: 0,
        };
        let pinned = [Act::Pin(mark)];
        let open = OpenSheets {
            case: &case,
            acts: if mark < count { &pinned } else { &[] },
        };
        let found = answer.map(|(sheet, cost)| (sheet, Cost::from(cost)));
        self.tally.expect(found == open.best());
        Ok(())
    }
}

// A hundred orders by their own calls, in one line.
pub fn run_directly(rt: &HostRuntime, seed: u64) -> anyhow::Result<()> {
    let mut runs = Runs {
        heap: rt.alloc(),
        random: Random::new(seed),
        tally: Tally::new(),
    };
    for _ in 0..100u8 {
        runs.run_direct()?;
    }
    let differences = runs.tally.differences();
    println!(rt; "100 orders by their own calls: {differences} differences")?;
    Ok(())
}

// A hundred runs of each kind, with a line for every ten of each.
pub fn run_many(rt: &HostRuntime, seed: u64) -> anyhow::Result<Tally> {
    let heap = rt.alloc();
    let mut runs = Runs {
        heap,
        random: Random::new(seed),
        tally: Tally::new(),
    };
    for number in 0..100u64 {
        runs.run_table()?;
        runs.run_both()?;
        if number % 10 == 9 {
            let tally = &runs.tally;
            println!(rt; "{tally}")?;
        }
    }
    Ok(runs.tally)
}
