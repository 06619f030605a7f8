// Marks, sheets and part-sheets, what a literal says of a sheet, and the judges and scales of sheets.
#![tactic(auto)]

mod both;
mod ceiling;
mod first_then;
mod judge;
mod literal_sets;
mod literals;
mod marks;
mod part;
mod scale;

pub use both::Both;
pub use ceiling::Ceiling;
pub use first_then::FirstThen;
pub use judge::Judge;
pub use literal_sets::LiteralSet;
pub use literals::{Interpretation, Literal, are_all_held, is_one_held};
pub use marks::{Mark, Sheet, WIDTH, first_marks, has_mark, with_mark, within_count};
pub use part::PartSheet;
pub use scale::Scale;
