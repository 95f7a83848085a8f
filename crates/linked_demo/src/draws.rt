//! Numbers that look drawn by lot, the same in each run. `linked_bench` has a line of the kind too: the crate below both is of
//! rows, and a draw is none.

#[derive(Clone, Copy)]
pub struct Draws {
    state: u32,
}

impl Draws {
    pub fn new(seed: u32) -> Draws {
        Draws { state: seed }
    }

    /// A number below a bound, of 24 bits; 0 where the bound is 0.
    pub fn below(&mut self, bound: u32) -> u32 {
        self.state = self
            .state
            .wrapping_mul(1_664_525)
            .wrapping_add(1_013_904_223);
        if bound == 0 {
            0
        } else {
            (self.state >> 8) % bound
        }
    }
}
