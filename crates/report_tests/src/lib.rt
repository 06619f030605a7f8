// Tests of the report and of a press: their lines, their length, and what they do with the buffer; of verdicts, judges and scales from the bytes
// of a file; and of what errors and costs print.
#![tactic(auto)]

#[cfg(test)]
mod acts;
#[cfg(test)]
mod buffers;
#[cfg(test)]
mod build;
#[cfg(test)]
mod from_bytes;
#[cfg(test)]
mod lines;
#[cfg(test)]
mod presses;
#[cfg(test)]
mod verdicts;
#[cfg(test)]
mod words;
