// The report: what becomes of the acts of a rule file, and the sheet that the order then settles on, in lines.
#![tactic(auto)]

mod presses;
mod refusals;
mod reports;
mod settling;
mod theorems;
mod writing;

pub use presses::press;
pub use refusals::{Refusal, ReportError};
pub use reports::{LEAST_BUFFER, report};
pub use theorems::lines_stand;
