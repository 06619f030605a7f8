// What is read of an input, and what stays with the reader.
use crate::build::*;
use rulefile::Refusal::FileTooLong;
use rulefile::read_input;
use std::io;
use std::io::{ErrorKind, Read};
use std::test::Fail;

// Of three million bytes one more than a file may have is read: the input is refused by 10 at 0, and the others stay.
#[test]
fn input_of_megabytes(rt: HostRuntime) -> Result<(), Fail> {
    let bytes = vec![in rt.alloc(); 0; 3_000_000]?;
    let mut input = bytes.as_slice();
    let file = read_input(rt.alloc(), &mut input)?;
    assert_eq!(rt; (file.len(), input.len()), (32_769, 2_967_231));
    check_file(&rt, file.as_slice(), at(0, Err(FileTooLong)))
}

// Gives seven bytes at most in a call, and is interrupted in every other call.
#[derive(Drop)]
struct Pieces<'a> {
    rest: &'a [u8],
    interrupted: bool,
}

impl Read for Pieces<'_> {
    fn read(&mut self, buffer: &mut [u8]) -> io::Result<usize> {
        self.interrupted = !self.interrupted;
        if self.interrupted {
            return Err(ErrorKind::Interrupted.into());
        }
        let rest = self.rest;
        let mut piece = &rest[..rest.len().min(7)];
        let n = piece.read(buffer)?;
        self.rest = &rest[n..];
        Ok(n)
    }
}

// All of a short input is read, in whatever pieces it comes.
#[test]
fn input_in_pieces(rt: HostRuntime) -> Result<(), Fail> {
    let mut bytes = head_alone(rt.alloc(), 4)?;
    add_records(&mut bytes, 256, ACT, &[4])?;
    let mut input = Pieces {
        rest: bytes.as_slice(),
        interrupted: false,
    };
    let file = read_input(rt.alloc(), &mut input)?;
    assert_eq!(rt; file.as_slice(), bytes.as_slice());
    Ok(())
}
