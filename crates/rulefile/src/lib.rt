// The reader of rule files: their types, their refusals, and `read`.
#![tactic(auto)]

mod body;
mod constraints;
mod draft;
mod files;
mod frame;
mod groups;
mod inputs;
pub mod limits;
mod reader;
mod records;
mod refusals;
mod uniform;
mod weak_constraints;
mod wishes;

pub use constraints::{Constraint, Element};
pub use files::RuleFile;
pub use inputs::{input_limit, read_input};
pub use reader::{read, read_or_head_alone};
pub use records::{Act, Clause, Kind, Rule};
pub use refusals::{BadFile, ReadError, Refusal};
pub use uniform::Uniform;
pub use weak_constraints::{Group, Single, WeakConstraint};
pub use wishes::{Key, Wish};
