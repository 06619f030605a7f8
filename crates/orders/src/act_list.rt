// The memory of the acts that stand.
ghost use Rattle.std.specs.Prelude.{◌≡◌, ◌<◌, ◌≤◌, [], ◌∷◌, ◌++◌, IfNone, length, nat_le};
ghost use Rattle.std.specs.Option.{option_to_list};
ghost use Rattle.orders.specs.Acts.{most_acts};

use crate::acts::Act;
use std::marker::Model;

// How many acts can stand.
const MOST_ACTS: usize = 32;

// A list of acts, of which there is room for 32. It lies in the value itself, as no call on an order may fail for want of
// memory.
#[derive(Drop)]
pub(crate) struct ActList {
    // The first `len` of these are the acts of the list.
    places: [Act; MOST_ACTS],
    len: usize,
}

impl Model for ActList {
    ghost use Rattle.std.specs.Prelude.{◌≡◌, ◌≤◌, List, length, take};
    ghost use Rattle.orders.specs.declared.acts.Act.{Act};

    ghost Value = { List Act };

    ghost view = { λ l. take l.len l.places };

    ghost invariant = { λ l. (length l.places ≡ 32) × (l.len ≤ 32) };
}

impl ActList {
    // No act.
    pub(crate) fn new() -> ActList
        ensures { result ≡ [] }
    {
        ActList {
            places: [Act::Pin(0); MOST_ACTS],
            len: 0,
        }
    }

    // The acts, in order.
    pub(crate) fn as_slice(&self) -> &[Act]
        ensures { result.now ≡ self.now }
    {
        &self.places[0..self.len]
    }

    // How many acts there are.
    pub(crate) fn len(&self) -> u8
        ensures { result ≡ length self.now }
    {
        self.len as u8
    }

    // There is no room for one more.
    pub(crate) fn is_full(&self) -> bool
        ensures { result ≡ nat_le most_acts (length self.now) }
    {
        self.len >= MOST_ACTS
    }

    // Adds the act at the end.
    pub(crate) fn push(&mut self, act: Act)
        requires { length self.old < most_acts }
        ensures { self.new ≡ self.old ++ act ∷ [] }
    {
        self.places[self.len] = act;
        self.len += 1;
    }

    // Takes the last act off, if there is one.
    pub(crate) fn pop(&mut self) -> Option<Act>
        ensures items { self.old ≡ self.new ++ option_to_list result }
        ensures empty { IfNone result (self.old ≡ []) }
    {
        if self.len == 0 {
            return None;
        }
        self.len -= 1;
        Some(self.places[self.len])
    }
}
