// Where a rule file comes from.
use crate::fault_text::FaultText;
use crate::faults::fault_of;
use crate::text::RefusalText;
use anyhow::Context;
use rulefile::{BadFile, ReadError, RuleFile, read, read_input};
use std::fs::File;
use std::rc::Rc;

// The bytes of the rule file at the path, or of standard input, as far as they are read.
fn read_bytes(rt: &HostRuntime, path: &Option<String>) -> anyhow::Result<Vec<u8>> {
    match path {
        Some(path) => {
            let mut file = File::open(rt, path.as_str()).context(format_args!(
                "cannot open {path:?}"
            ))?;
            read_input(rt.alloc(), &mut file).context(format_args!("cannot read {path:?}"))
        }
        None => Ok(read_input(rt.alloc(), &mut rt.stdin())?),
    }
}

// Prints the refusal, and on standard error where its fault is. That this cannot be written is no failure.
fn print_refusal(rt: &HostRuntime, bytes: &[u8], bad: BadFile) -> anyhow::Result<()> {
    let text = RefusalText(bad);
    print!(rt; "{text}")?;
    if let Some(fault) = fault_of(bytes, bad) {
        let text = FaultText(fault);
        let _ = eprintln!(rt; "{text}");
    }
    Ok(())
}

// The rule file at the path, or on standard input. There is none where it is refused, which is then printed.
pub fn read_file(rt: &HostRuntime, path: &Option<String>) -> anyhow::Result<Option<Rc<RuleFile>>> {
    let bytes = read_bytes(rt, path)?;
    match read(rt.alloc(), bytes.as_slice()) {
        Ok(file) => Ok(Some(Rc::new(rt.alloc(), file)?)),
        Err(ReadError::Refused(bad)) => {
            print_refusal(rt, bytes.as_slice(), bad)?;
            Ok(None)
        }
        Err(error) => Err(error.into()),
    }
}
