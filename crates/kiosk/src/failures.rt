// Why a report was not written.
use std::error::Error;
use std::{fmt, io};

// It prints the words of its cause alone.
#[derive(Debug, Drop)]
pub enum Failure {
    // No report was made: the input cannot be read, or memory is wanting.
    NoReport(anyhow::Error),
    // The report was made, and it cannot be written.
    Output(io::Error),
}

impl fmt::Display for Failure {
    fn fmt<W: fmt::Write>(&self, f: &mut fmt::Formatter<W>) -> fmt::Result {
        match self {
            Failure::NoReport(why) => why.fmt(f),
            Failure::Output(why) => why.fmt(f),
        }
    }
}

impl Error for Failure {}
