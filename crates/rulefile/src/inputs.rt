// How much of an input is read.
ghost use Rattle.std.specs.Prelude.{◌≡◌, ◌≤◌, ◌<◌, length, take, IfOk, IfSome, OnOk, vec_len};
ghost use Rattle.std.specs.Io.KnownBytes.{Consumes, IsAtEnd};
ghost use Rattle.rulefile.specs.Format.{decode};
ghost use Rattle.rulefile.specs.Reading.{input_bytes, Enough, Fewest, LeavesAfter, GivesAtMost};

use crate::limits::MOST_BYTES;
use std::alloc::Global;
use std::io;
use std::io::{ErrorKind, Read};

// The first so many bytes of an input mean what the whole does, and no fewer do: they are one more than a file may have, so
// that a longer one is seen to be too long.
pub fn input_limit() -> u64
    ensures value { result ≡ input_bytes }
    ensures enough { Enough result }
    ensures fewest { Fewest result }
{
    (MOST_BYTES + 1) as u64
}

// Reads until the buffer is full or the reader is at its end, and answers how many bytes stand in the buffer. The library's
// `read_to_end` of a limited reader says nothing of what is left behind the limit.
fn fill<R: Read>(input: &mut R, buffer: &mut [u8]) -> io::Result<usize>
    ensures within { IfOk result (λ n. n ≤ length buffer.new) }
    ensures bytes { IfOk result (λ n. Consumes (R.remaining input.old) (R.remaining input.new) (take n buffer.new)) }
    ensures end { IfOk result (λ n. n < length buffer.new → IsAtEnd (R.remaining input.new)) }
    ensures bound { GivesAtMost (length buffer.old) (R.remaining input.old) (R.remaining input.new) }
{
    let mut filled = 0;
    for _ in 0..u64::MAX {
        if filled >= buffer.len() {
            return Ok(filled);
        }
        match input.read(&mut buffer[filled..]) {
            Ok(0) => return Ok(filled),
            Ok(n) => filled += n,
            Err(error) => {
                if error.kind() != ErrorKind::Interrupted {
                    return Err(error);
                }
            }
        }
    }
    Err(ErrorKind::TimedOut.into())
}

// Reads the first bytes of an input, as many as tell what all of it means. What comes after them stays in the reader. It
// fails where the reader does, or where memory is wanting.
pub fn read_input<R: Read>(heap: Global, input: &mut R) -> io::Result<Vec<u8>>
    ensures meaning { IfOk result (λ file. IfSome (R.remaining input.old) (λ bytes. decode file.items ≡ decode bytes)) }
    ensures first { IfOk result (λ file. IfSome (R.remaining input.old) (λ bytes. file.items ≡ take input_bytes bytes)) }
    ensures rest { OnOk result (LeavesAfter input_bytes (R.remaining input.old) (R.remaining input.new)) }
    ensures bound { GivesAtMost input_bytes (R.remaining input.old) (R.remaining input.new) }
    ensures size { IfOk result (λ file. vec_len file ≤ input_bytes) }
{
    let mut file = vec![in heap; 0; input_limit() as usize]?;
    let length = fill(input, &mut file)?;
    file.truncate(length);
    Ok(file)
}
