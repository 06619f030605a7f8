// Orders: the acts that sheets are held to, and the search for the cheapest sheet that keeps them.
#![tactic(auto)]

mod act_list;
mod acts;
mod calls;
mod conducting;
mod docket;
mod layer;
mod marking;
mod search;
mod seeking;
mod settled;
mod stage;
mod steps;
mod theorems;
mod turns;

pub use acts::{Act, Refusal};
pub use calls::{Answer, Call, Event, Progress};
pub use conducting::conduct;
pub use layer::Acts;
pub use marking::Marking;
pub use seeking::Seeking;
pub use settled::Settled;
pub use theorems::{search_ends, search_in_order};
