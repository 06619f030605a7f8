// Which sheets are lawful: the book, the printer's list, and the verdict.
#![tactic(auto)]

mod answers;
mod book;
mod closures;
mod list;
mod parts;
mod sums;
mod theorems;
mod verdicts;

pub use answers::{VerdictError, bytes_verdict, sheet_verdict};
pub use book::Book;
pub use list::{PrinterList, first_broken_clause};
pub use theorems::{closures_stand, sums_stand};
pub use verdicts::{Refusal, Verdict};
