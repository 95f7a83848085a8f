//! The simple list that the table and the recency list are checked against.

use std::alloc::{AllocFailed, Global};
use std::slice::Iter;

/// Row numbers, the one used longest ago first.
#[derive(Drop)]
pub struct Plain {
    items: Vec<u32>,
}

impl Plain {
    pub fn new(heap: Global) -> Plain {
        Plain {
            items: Vec::new(heap),
        }
    }

    pub fn len(&self) -> usize {
        self.items.len()
    }

    pub fn iter(&self) -> Iter<'_, u32> {
        self.items.iter()
    }

    pub fn contains(&self, i: u32) -> bool {
        self.items.contains(&i)
    }

    pub fn add(&mut self, i: u32) -> Result<(), AllocFailed<u32>> {
        self.items.push(i)
    }

    pub fn remove(&mut self, i: u32) {
        if let Some(place) = self.items.iter().position(|item| *item == i) {
            let _ = self.items.remove(place);
        }
    }
}
