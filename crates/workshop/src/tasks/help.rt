// The task `help`: what tasks there are.
use crate::tasks::{list, press, verdict};
use anyhow::bail;
use std::fmt;

const HELP: &str = "help             these lines";

// What the task is given: nothing.
#[derive(Clone, Copy)]
pub struct Help;

impl Help {
    pub fn of(words: &[String]) -> anyhow::Result<Help> {
        if let Some(word) = words.first() {
            bail!("help takes no words: {word:?}");
        }
        Ok(Help)
    }

    pub fn run(self, rt: &HostRuntime) -> anyhow::Result<()> {
        print!(rt; "{HelpText}")?;
        Ok(())
    }
}

// Displays the tasks, a line for each.
#[derive(Clone, Copy)]
pub struct HelpText;

impl fmt::Display for HelpText {
    fn fmt<W: fmt::Write>(&self, f: &mut fmt::Formatter<W>) -> fmt::Result {
        f.write_str("workshop TASK WORD..\n\n")?;
        for line in [list::HELP, verdict::HELP, press::HELP, HELP] {
            writeln!(f, "  {line}")?;
        }
        f.write_str(
            "\nThe rule file comes on standard input, or by --file PATH among the words behind the task.\n",
        )
    }
}
