// An order at any stage.
use crate::marking::Marking;
use crate::seeking::Seeking;
use crate::settled::Settled;
use sheets::{Judge, Scale};

// An order at the stage that it is at.
#[derive(Drop)]
pub enum Order<J: Judge, S: Scale> {
    Marking(Marking<J, S>),
    Seeking(Seeking<J, S>),
    Settled(Settled<J, S>),
}
