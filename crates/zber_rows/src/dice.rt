//! Numbers that come again in each run, for facts, queries, worlds, moves and orders of no kind in particular.
use std::alloc::{AllocError, Global};

/// A linear congruential generator (Knuth, The Art of Computer Programming, volume 2, 3.3.4).
#[derive(Drop)]
pub struct Dice {
    state: u64,
}

impl Dice {
    /// The numbers that come from a seed.
    pub fn new(seed: u64) -> Dice {
        Dice { state: seed }
    }

    /// A number below this one; 0 where there is none.
    pub fn number_below(&mut self, bound: u64) -> u64 {
        self.state = self
            .state
            .wrapping_mul(6364136223846793005)
            .wrapping_add(1442695040888963407);
        (self.state >> 33).checked_rem(bound).unwrap_or(0)
    }

    /// One of these texts; the empty one where there is none.
    pub fn one(&mut self, texts: &[&'static str]) -> &'static str {
        let at = self.number_below(texts.len() as u64);
        texts.get(at as usize).copied().unwrap_or("")
    }

    /// The numbers below a count in some order.
    pub fn order(&mut self, alloc: Global, count: usize) -> Result<Vec<usize>, AllocError> {
        let mut order: Vec<usize> = (0..count).collect(alloc)?;
        for at in 0..order.len() {
            let other = self.number_below(count as u64) as usize;
            if other < order.len() && at < order.len() {
                order.swap(at, other);
            }
        }
        Ok(order)
    }
}
