// The program for those who repair kiosks and write rule files. Its first word names a task.
#![tactic(auto)]

mod facts;
mod fault_text;
mod faults;
mod input;
mod marks;
mod tasks;
mod text;
mod walk;
mod words;

use anyhow::Context;
use std::env;
use std::process::ExitCode;
use tasks::Task;
use tasks::help::HelpText;

// The task that the call asks for. Words that are no UTF-8 are refused, those of a path too.
fn asked(rt: &HostRuntime) -> anyhow::Result<Task> {
    let words = env::args(rt).context("the words cannot be read")?;
    let words: Vec<String> = words.skip(1).collect(rt.alloc())?;
    Task::of(rt.alloc(), words.as_slice())
}

fn main(rt: HostRuntime) -> anyhow::Result<ExitCode> {
    match asked(&rt) {
        Ok(task) => {
            task.run(&rt)?;
            Ok(ExitCode::SUCCESS)
        }
        Err(wrong) => {
            eprint!(rt; "workshop: {wrong}\n\n{HelpText}")?;
            Ok(ExitCode::FAILURE)
        }
    }
}
