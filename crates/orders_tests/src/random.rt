// A fixed generator of numbers, the same at every run.

// What the state is multiplied by, and what is then added.
const FACTOR: u64 = 6_364_136_223_846_793_005;

const STEP: u64 = 1_442_695_040_888_963_407;

// A linear congruential generator over 64 bits.
#[derive(Drop)]
pub struct Random {
    state: u64,
}

impl Random {
    pub fn new(seed: u64) -> Random {
        Random { state: seed }
    }

    // The upper half of the next state, as the lower bits of such a generator repeat soon.
    pub fn next(&mut self) -> u64 {
        self.state = self.state.wrapping_mul(FACTOR).wrapping_add(STEP);
        self.state >> 32
    }

    // A number below the limit; 0 where that is 0.
    pub fn below(&mut self, limit: u64) -> u64 {
        self.next().checked_rem(limit).unwrap_or(0)
    }

    // The same for small numbers. It draws other bits than `below`, and runs are stored.
    pub fn small(&mut self, limit: u8) -> u8 {
        let drawn = (self.next() & 0xffff) as u16;
        if limit == 0 {
            0
        } else {
            (drawn % u16::from(limit)) as u8
        }
    }
}
