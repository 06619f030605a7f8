// Orders whose sheets do not cost more than a ceiling.
#![tactic(auto)]

mod conducting;

pub use conducting::conduct_below;
