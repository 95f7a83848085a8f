//! Pages: given out in order, each to the class that keeps it, and what is counted of them.

ghost use Rattle.std.specs.Prelude.{◌≡◌, ℕ, ◌+◌, ◌*◌, ◌^◌, ◌<◌, ◌≤◌, ◌&&◌, List, length, MatchBool, nat_lt, slice_index};
ghost use Rattle.slabs.specs.Rows.{rests};
ghost use Rattle.slabs.specs.Classes.{count_at};
ghost use Rattle.slabs.specs.declared.class.Stand.TheVariants.{Free};
ghost use Rattle.slabs.specs.Lists.{free_of, granted_of, held_of, stocked, filled};
ghost use Rattle.slabs.specs.Slabs.{rows_of, homes_of, layout, Lists, Sound, PageGiven};

use super::{ROWS_PER_PAGE, Slab};
use crate::class::Stand;

impl Slab {
    // How many chunks a page gives a class, 0 where there is no such class: as `size`, of another field, and no longer than a call
    // that names the field.
    fn chunks(&self, class: usize) -> u32
        ensures { result ≡ slice_index (layout self.now).chunks class }
    {
        self.classes.all.get(class).map_or(0, |class| class.chunks)
    }

    /// Gives the next free page to a class: all its chunks are free. False, and nothing done, where there is no free
    /// page or no such class.
    pub fn give_page(&mut self, class: usize) -> bool
        requires { ∥ Sound self.old ∥₁ }
        ensures sound { ∥ Sound self.new ∥₁ }
        ensures answer { result ≡ (nat_lt self.old.given self.old.pages && nat_lt 0 (slice_index (layout self.old).chunks class)) }
        ensures given { MatchBool result (PageGiven self.old self.new class) (self.new ≡ self.old) }
        ensures rests { rests (rows_of self.new) ≡ rests (rows_of self.old) }
    {
        let chunks = self.chunks(class);
        if self.given >= self.pages || chunks == 0 {
            return false;
        }
        let page = self.given;
        self.classes
            .stock(&mut self.rows, class, ROWS_PER_PAGE as u32 * page, chunks);
        self.classes.all[class].pages += 1;
        self.owners[page as usize] = class as u8;
        self.given = page + 1;
        true
    }
}

/// What is counted of a class: its pages, and its chunks by what they are.
#[derive(Clone, Copy, Default)]
pub struct Tally {
    pub pages: u32,
    pub free: u32,
    pub granted: u32,
    pub used: u32,
}

impl Slab {
    /// The counts of a class, all 0 where there is no such class. Every chunk of its pages is free, granted or used.
    pub fn tally(&self, class: usize) -> Tally
        requires { ∥ Sound self.now ∥₁ }
        ensures pages { result.pages ≡ slice_index (layout self.now).shares class }
        ensures counts { (ls : ℕ → List ℕ) → Lists self.now ls → (result.free ≡ length (ls (free_of class))) × (result.granted ≡ length (ls (granted_of class))) × (result.used ≡ length (ls (held_of class))) }
        ensures whole { result.free + result.granted + result.used ≡ result.pages * slice_index (layout self.now).chunks class }
    {
        let Some(class) = self.classes.all.get(class) else {
            return Tally::default();
        };
        Tally {
            pages: class.pages,
            free: class.at(Stand::Free).count,
            granted: class.at(Stand::Granted).count,
            used: class.at(Stand::Held).count,
        }
    }

    /// How many pages were not given out yet.
    pub fn free_pages(&self) -> u32
        requires { ∥ Sound self.now ∥₁ }
        ensures { self.now.given + result ≡ self.now.pages }
    {
        self.pages - self.given
    }
}
