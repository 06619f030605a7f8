// The tasks, each in a file of its own. A new one has a case, and a line in each function and in `help`.
pub mod help;
pub mod list;
pub mod press;
pub mod verdict;

use anyhow::bail;
use help::Help;
use list::List;
use press::Press;
use std::alloc::Global;
use verdict::Verdict;

// What the program is asked to do.
#[derive(Drop)]
pub enum Task {
    Help(Help),
    List(List),
    Press(Press),
    Verdict(Verdict),
}

impl Task {
    // The task that the words of a call ask for, or what is wrong with them.
    pub fn of(heap: Global, words: &[String]) -> anyhow::Result<Task> {
        let [name, rest @ ..] = words else {
            bail!("no task is named");
        };
        match name.as_str() {
            "help" => Ok(Task::Help(Help::of(rest)?)),
            "list" => Ok(Task::List(List::of(heap, rest)?)),
            "press" => Ok(Task::Press(Press::of(heap, rest)?)),
            "verdict" => Ok(Task::Verdict(Verdict::of(heap, rest)?)),
            _ => bail!("there is no task {name:?}"),
        }
    }

    // Does what is asked. It fails where the input or the output does, or where memory is wanting.
    pub fn run(&self, rt: &HostRuntime) -> anyhow::Result<()> {
        match self {
            Task::Help(help) => help.run(rt),
            Task::List(list) => list.run(rt),
            Task::Press(press) => press.run(rt),
            Task::Verdict(verdict) => verdict.run(rt),
        }
    }
}
