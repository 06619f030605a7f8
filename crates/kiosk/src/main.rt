// Writes the report on a rule file that comes on standard input to standard output.
#![tactic(auto)]

ghost use Rattle.std.specs.Prelude.{◌≡◌, ℕ, List, take, Err, IfOk, OnOk, IfSome};
ghost use Rattle.std.specs.Io.KnownBytes.{Appends};
ghost use Rattle.std.specs.declared.io.Error.{Error};
ghost use Rattle.anyhow.specs.declared.error.Error.{Error as Cause};
ghost use Rattle.kiosk.specs.declared.failures.Failure.TheVariants.{NoReport, Output};
ghost use Rattle.rulefile.specs.Reading.{input_bytes, LeavesAfter, GivesAtMost};
ghost use Rattle.report.specs.Reports.{Report};

mod failures;
#[cfg(test)]
mod tests;

use failures::Failure;
use report::{LEAST_BUFFER, report};
use rulefile::read_input;
use std::alloc::Global;
use std::io;
use std::io::{ErrorKind, Read, Write};

// The report on all that the reader has left, where that is known, however much it is. It reads no more of it than tells
// what all of it means.
fn make_report<R: Read>(heap: Global, input: &mut R) -> anyhow::Result<Vec<u8>>
    ensures report { IfOk result (λ lines. IfSome (R.remaining input.old) (λ bytes. Report bytes lines.items)) }
    ensures rest { OnOk result (LeavesAfter input_bytes (R.remaining input.old) (R.remaining input.new)) }
    ensures bound { GivesAtMost input_bytes (R.remaining input.old) (R.remaining input.new) }
{
    let file = read_input(heap, input)?;
    let mut lines = vec![in heap; 0; LEAST_BUFFER]?;
    let length = report(heap, file.as_slice(), &mut lines)?;
    lines.truncate(length);
    Ok(lines)
}

// Writes the bytes. Where that fails, a front part of them may have been written; the library's `write_all` says nothing
// of what it wrote then.
fn write_whole<W: Write>(output: &mut W, bytes: &[u8]) -> io::Result<()>
    ensures whole { OnOk result (Appends (W.contents output.old) (W.contents output.new) bytes.now) }
    ensures part { (n : ℕ) × Appends (W.contents output.old) (W.contents output.new) (take n bytes.now) }
{
    let mut written = 0;
    for _ in 0..u64::MAX {
        if written >= bytes.len() {
            return Ok(());
        }
        match output.write(&bytes[written..]) {
            Ok(0) => return Err(io::Error::new(
                ErrorKind::WriteZero,
                "failed to write whole buffer",
            )),
            Ok(n) => written += n,
            Err(error) => {
                if error.kind() != ErrorKind::Interrupted {
                    return Err(error);
                }
            }
        }
    }
    Err(ErrorKind::TimedOut.into())
}

// Writes the report on all that the reader has left, where that is known, behind what the writer holds. Nothing is written
// before the whole report is made, and what is written is a front part of it.
fn write_report<R: Read, W: Write>(
    heap: Global,
    input: &mut R,
    output: &mut W,
) -> Result<(), Failure>
    ensures report { OnOk result (IfSome (R.remaining input.old) (λ bytes. (lines : List ℕ) × Report bytes lines × Appends (W.contents output.old) (W.contents output.new) lines)) }
    ensures unwritten { (why : Cause) → result ≡ Err (NoReport why) → output.new ≡ output.old }
    ensures part { (why : Error) → result ≡ Err (Output why) → IfSome (R.remaining input.old) (λ bytes. (lines : List ℕ) × (n : ℕ) × Report bytes lines × Appends (W.contents output.old) (W.contents output.new) (take n lines)) }
    ensures rest { OnOk result (LeavesAfter input_bytes (R.remaining input.old) (R.remaining input.new)) }
    ensures bound { GivesAtMost input_bytes (R.remaining input.old) (R.remaining input.new) }
{
    let lines = make_report(heap, input).map_err(Failure::NoReport)?;
    write_whole(output, lines.as_slice()).map_err(Failure::Output)
}

fn main(rt: HostRuntime) -> anyhow::Result<()> {
    write_report(rt.alloc(), &mut rt.stdin(), &mut rt.stdout())?;
    Ok(())
}
