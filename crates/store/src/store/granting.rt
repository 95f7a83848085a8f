//! Chunks that are granted: a free one, or one of a free page, or that of a dead record, or that of the rearmost record.

ghost use Rattle.std.specs.Prelude.{◌≡◌, ℕ, ◌+◌, ◌^◌, ◌<◌, ◌≤◌, List, is_some, IfSome, IfOk, if◌then◌else◌, Some, None, nat_lt};
ghost use Rattle.plan.specs.Need.{need_of};
ghost use Rattle.plan.specs.Classes.{class_of, size_at};
ghost use Rattle.policy.specs.Meaning.{meaning};
ghost use Rattle.model.specs.Setup.{Setup};
ghost use Rattle.model.specs.Sound.{Numbered};
ghost use Rattle.model.specs.Store.{Store, Expired, Evicted, has_room, give_page, rid, rear_dead, rear};
ghost use Rattle.store.specs.Showing.{Shows, HasGrant, room_of, pages_of};
ghost use Rattle.store.specs.Granting.{with_room, granting, Made, Comes, Granting};

use super::RecordStore;
use crate::counts::Why;
use policy::Policy;
use slabs::Grant;

/// Why no chunk was granted.
#[derive(Clone, Copy)]
pub enum NoRoom {
    TooLarge,
    Full,
}

impl RecordStore {
    // Grants a free chunk of a class, if it has one.
    fn take(&mut self, class: usize, need: u64) -> Option<Grant>
        ensures pages { pages_of self.new ≡ pages_of self.old }
        ensures granted { IfSome result (λ grant. (grant.class ≡ class) × HasGrant self.new grant × (need ≤ room_of self.new grant)) }
        ensures shown { (setup : Setup) (n : ℕ) (memory : List ℕ) (s : Store) → Shows setup n self.old memory None s → Shows setup n self.new memory result s }
        ensures room { (setup : Setup) (n : ℕ) (memory : List ℕ) (s : Store) → Shows setup n self.old memory None s → Numbered setup class → need ≤ size_at setup.sizes class → is_some result ≡ has_room setup class s }
    {
        if need > u64::from(self.records.size(class)) {
            return None;
        }
        self.records.take(class)
    }

    // Gives a free page to a class, if there is one.
    fn give_page(&mut self, class: usize) -> bool
        ensures pages { pages_of self.new ≡ pages_of self.old }
        ensures shown { (setup : Setup) (n : ℕ) (memory : List ℕ) (s : Store) → Shows setup n self.old memory None s → Numbered setup class → Made setup class n self.new memory s (if nat_lt 0 s.free then Some (give_page class s) else None) result }
    {
        self.records.give_page(class)
    }

    // Removes the dead record nearest the back of a class, if there is one.
    fn reclaim(&mut self, class: usize, second: u32) -> bool
        requires { class < 33 }
        ensures pages { pages_of self.new ≡ pages_of self.old }
        ensures shown { (setup : Setup) (n : ℕ) (memory : List ℕ) (s : Store) → Shows setup n self.old memory None s → Numbered setup class → Made setup class n self.new memory s (rid setup second Expired (rear_dead second class s) s) result }
    {
        if !self.soonest.may_have_dead(class, second) {
            return false;
        }
        let Some(row) = self.records.rearmost_dead(class, second) else {
            // the answer is a bool, here and in `evict`, which `?` cannot hand on
            self.soonest.wait_past(class, second);
            return false;
        };
        self.leave(row, Why::Expired);
        true
    }

    // Pushes the rearmost record of a class out, if there is one.
    fn evict(&mut self, class: usize) -> bool
        ensures pages { pages_of self.new ≡ pages_of self.old }
        ensures shown { (setup : Setup) (n : ℕ) (memory : List ℕ) (s : Store) (at : ℕ) → Shows setup n self.old memory None s → Numbered setup class → Made setup class n self.new memory s (rid setup at Evicted (rear class s) s) result }
    {
        let Some(row) = self.records.rearmost(class) else {
            return false;
        };
        self.leave(row, Why::Evicted);
        true
    }

    // Makes room in a full class, if there is a way.
    fn make_room(&mut self, class: usize, second: u32, evicts: bool) -> bool
        requires { class < 33 }
        ensures pages { pages_of self.new ≡ pages_of self.old }
        ensures shown { (setup : Setup) (n : ℕ) (memory : List ℕ) (s : Store) → Shows setup n self.old memory None s → Numbered setup class → Made setup class n self.new memory s (with_room setup evicts second class s) result }
    {
        self.give_page(class) || self.reclaim(class, second) || (evicts && self.evict(class))
    }

    // Grants a chunk for a record that needs so much room.
    fn grant_room(&mut self, need: u64, second: u32, evicts: bool) -> Result<Grant, NoRoom>
        ensures pages { pages_of self.new ≡ pages_of self.old }
        ensures granted { IfOk result (λ grant. HasGrant self.new grant × (need ≤ room_of self.new grant)) }
        ensures shown { (setup : Setup) (n : ℕ) (memory : List ℕ) (s : Store) → Shows setup n self.old memory None s → Comes setup (λ c. granting setup evicts second c s) (class_of need setup.sizes) n self.new memory s result }
    {
        let class = self.plan.class_of(need).ok_or(NoRoom::TooLarge)?;
        if let Some(grant) = self.take(class, need) {
            return Ok(grant);
        }
        if !self.make_room(class, second, evicts) {
            return Err(NoRoom::Full);
        }
        self.take(class, need).ok_or(NoRoom::Full)
    }

    /// Grants a chunk for a record of these lengths. A class that is full gets a free page, or loses its dead record
    /// nearest the back, or, if the policy lets it, its rearmost record.
    pub fn grant<P: Policy>(
        &mut self,
        policy: &P,
        second: u32,
        key_len: usize,
        data_len: usize,
    ) -> Result<Grant, NoRoom>
        requires short { key_len + data_len < 2 ^ 32 }
        ensures pages { pages_of self.new ≡ pages_of self.old }
        ensures granted { IfOk result (λ grant. HasGrant self.new grant × (key_len + data_len ≤ room_of self.new grant)) }
        ensures shown { (setup : Setup) (n : ℕ) (memory : List ℕ) (s : Store) → n < 2 ^ 63 → Shows setup n self.old memory None s → Granting setup (meaning P.Policy.NUMBER (P.Policy.evicting policy.now) (P.Policy.moving policy.now)) second (class_of (need_of key_len data_len) setup.sizes) n self.new memory s result }
    {
        let need = key_len + data_len;
        self.grant_room(need as u64, second, policy.evicts())
    }

    /// Returns a grant: its chunk is free again.
    pub fn give_back(&mut self, grant: Grant)
        requires granted { HasGrant self.old grant }
        ensures pages { pages_of self.new ≡ pages_of self.old }
        ensures shown { (setup : Setup) (n : ℕ) (memory : List ℕ) (s : Store) → Shows setup n self.old memory (Some grant) s → Shows setup n self.new memory None s }
    {
        self.records.give_back(grant);
    }
}
