//! A walk from the back of a class to the first record that passes a test.

ghost use Rattle.std.specs.Prelude.{◌≡◌, ℕ, ◌<◌, ◌≤◌, ◌⊎◌, Bool, List, None};
ghost use Rattle.std.specs.Fn.{FnReturnsAt};
ghost use Rattle.recency.specs.Lists.{rearmost};
ghost use Rattle.slabs.specs.Lists.{held_of, keep, Picks};
ghost use Rattle.slabs.specs.Slabs.{rows_of, Lists, Sound};

use crate::class::Stand;
use crate::row::Row;
use crate::slab::Slab;

impl Slab {
    /// The record nearest the back of a class whose row passes a test, if there is one. This walks along the class, of a slab
    /// that is known to be sound, so that the walk needs no count.
    pub fn rearmost_picked<F: Fn(&Row) -> bool>(&self, class: usize, test: F) -> Option<u32>
        requires sound { ∥ Sound self.now ∥₁ }
        requires callable { F.IsAlwaysCallable test }
        ensures { (picks : ℕ → Bool) → Picks (FnReturnsAt F.Fn test) (rows_of self.now) picks → (ls : ℕ → List ℕ) → Lists self.now ls → result ≡ rearmost (keep picks (ls (held_of class))) }
    {
        let mut at = self.rearmost(class);
        while let Some(i) = at {
            if test(&self.rows[i as usize]) {
                return Some(i);
            }
            at = self.ahead_of(i);
        }
        None
    }

    /// What `rearmost_picked` finds, of any slab: where its rows are in no order, the walk ends by the class's count or at a row
    /// that is not there. None past the last class.
    pub fn rearmost_that<F: Fn(&Row) -> bool>(&self, class: usize, test: F) -> Option<u32>
        requires { F.IsAlwaysCallable test }
        ensures found { (class < 33) ⊎ ∥ Sound self.now ∥₁ → (picks : ℕ → Bool) → Picks (FnReturnsAt F.Fn test) (rows_of self.now) picks → (ls : ℕ → List ℕ) → Lists self.now ls → result ≡ rearmost (keep picks (ls (held_of class))) }
        ensures none { 33 ≤ class → result ≡ None }
    {
        let chunks = self.classes.all.get(class)?.at(Stand::Held);
        let mut at = chunks.list.back();
        for _ in 0..chunks.count {
            let i = at?;
            let row = self.rows.get(i as usize)?;
            if test(row) {
                return Some(i);
            }
            at = recency::ahead_of(&self.rows, i);
        }
        None
    }
}

#[cfg(test)]
mod tests {
    use super::*;
    use crate::row::Tag;
    use plan::Plan;
    use std::test::Fail;

    // Puts a record with these flags at the front of class 1, and gives its row.
    fn put(slab: &mut Slab, memory: &mut [u8], flags: u32) -> Option<u32>
        requires { ∥ Sound slab.old ∥₁ }
        ensures { ∥ Sound slab.new ∥₁ }
    {
        let tag = Tag {
            flags,
            ..Tag::default()
        };
        let grant = slab.take(1)?;
        match slab.try_link(grant, memory, b"key", b"data", tag) {
            Ok(row) => Some(row),
            Err(grant) => {
                slab.give_back(grant);
                None
            }
        }
    }

    // The walk finds the oldest record that passes, and it ends where the slab's rows are in no order any more.
    #[test]
    fn rearmost_that(rt: HostRuntime) -> Result<(), Fail> {
        let plan = Plan::new(1024, 200).ok().ok_or("no plan")?;
        let mut slab = Slab::open(&plan, vec![in rt.alloc(); Row::blank(); 85]?);
        let mut memory = vec![in rt.alloc(); 0u8; 4096]?;
        assert!(rt; slab.give_page(1));
        let first = put(&mut slab, &mut memory, 1).ok_or("no room")?;
        let second = put(&mut slab, &mut memory, 2).ok_or("no room")?;
        put(&mut slab, &mut memory, 1).ok_or("no room")?;
        assert_eq!(rt;
            slab.rearmost_that(1, |row| row.tag.flags == 1),
            Some(first)
        );
        assert_eq!(rt;
            slab.rearmost_that(1, |row| row.tag.flags == 2),
            Some(second)
        );
        assert_eq!(rt; slab.rearmost_that(1, |row| row.tag.flags == 3), None);
        assert_eq!(rt; slab.rearmost_that(33, |_| true), None);
        for row in slab.rows.iter_mut() {
            row.prev = first;
        }
        assert_eq!(rt;
            slab.rearmost_that(1, |row| row.tag.flags == 1),
            Some(first)
        );
        assert_eq!(rt; slab.rearmost_that(1, |row| row.tag.flags == 2), None);
        slab.rows.clear();
        assert_eq!(rt; slab.rearmost_that(1, |_| true), None);
        Ok(())
    }
}
