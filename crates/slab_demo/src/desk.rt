//! Records put into a slab, with a simple copy of each kept beside it.

ghost use Rattle.std.specs.Prelude.{◌*◌, ◌≤◌, vec_len};
ghost use Rattle.slabs.specs.Slabs.{Sound};

use plan::Plan;
use slabs::{Row, Slab, Tag, Tally};
use std::alloc::AllocError;

/// The bytes of a page.
const PAGE: usize = plan::PAGE as usize;

/// A key and its data.
#[derive(Clone, Copy)]
struct Sample {
    key: [u8; 3],
    block: [u8; 100],
}

impl Sample {
    // The n-th sample: no two have the same key or data.
    fn numbered(n: u8) -> Sample {
        Sample {
            key: [b'k', b'0' + n % 100 / 10, b'0' + n % 10],
            block: [n; 100],
        }
    }
}

/// A copy of a record, and the row that the slab put it in.
#[derive(Clone, Copy)]
pub struct Kept {
    row: u32,
    sample: Sample,
}

/// A slab, its page memory with a page for each of its pages, and a copy of each record in it.
#[derive(Drop)]
pub struct Desk {
    slab: Slab,
    memory: Vec<u8>,
    copies: Vec<Kept>,
    ghost sound: { ∥ Sound slab ∥₁ },
    ghost wide: { 4096 * slab.pages ≤ vec_len memory },
}

impl Desk {
    /// A desk with no records, unless the memory is too short for the pages that the rows serve.
    pub fn open(plan: &Plan, rows: Vec<Row>, memory: Vec<u8>, copies: Vec<Kept>) -> Option<Desk> {
        let slab = Slab::open(plan, rows);
        if memory.len() / PAGE < slab.pages() as usize {
            return None;
        }
        Some(Desk {
            slab,
            memory,
            copies,
        })
    }

    /// Gives a page to a class, if one is left.
    pub fn give_page(&mut self, class: usize) -> bool {
        self.slab.give_page(class)
    }

    // Puts a sample into a class, if that has a free chunk of its size, and gives its row.
    fn store(&mut self, class: usize, sample: &Sample) -> Option<u32> {
        let Sample { key, block } = sample;
        let room = self.slab.size(class) as usize;
        if key.len() + block.len() > room {
            return None;
        }
        let tag = Tag {
            flags: 7,
            cas: 1,
            ..Tag::default()
        };
        let grant = self.slab.take(class)?;
        Some(self.slab.link(grant, &mut self.memory, key, block, tag))
    }

    /// Puts the samples from number `first` on into a class, five at most, and keeps copies of those that found room.
    pub fn fill(&mut self, class: usize, first: u8) -> Result<u32, AllocError> {
        let mut stored = 0;
        for n in 0..5 {
            let sample = Sample::numbered(first.wrapping_add(n));
            if let Some(row) = self.store(class, &sample) {
                self.copies.push(Kept { row, sample })?;
                stored += 1;
            }
        }
        Ok(stored)
    }

    /// Takes the record of the copy at a place out of the slab.
    pub fn forget(&mut self, at: usize) -> bool {
        if at >= self.copies.len() {
            return false;
        }
        let kept = self.copies.remove(at);
        self.slab.remove_if_held(kept.row)
    }

    /// Grants a chunk of a class and returns it unused. Says whether there was one.
    pub fn borrow_chunk(&mut self, class: usize) -> bool {
        // the grant has to be spent before the answer is given
        match self.slab.take(class) {
            Some(grant) => {
                self.slab.give_back(grant);
                true
            }
            None => false,
        }
    }

    /// The counts of a class.
    pub fn tally(&self, class: usize) -> Tally {
        self.slab.tally(class)
    }

    /// How many pages were not given out yet.
    pub fn free_pages(&self) -> u32 {
        self.slab.free_pages()
    }

    /// Whether every record has the bytes of its copy.
    pub fn agrees(&self) -> bool {
        self.copies.iter().all(|kept| {
            self.slab.holds(kept.row)
                && self.slab.key_of(&self.memory, kept.row) == kept.sample.key.as_slice()
                && self.slab.data_of(&self.memory, kept.row) == kept.sample.block.as_slice()
        })
    }
}
