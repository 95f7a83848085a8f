//! What is told of a record anew: that it was used, or its expiry.

ghost use Rattle.std.specs.Prelude.{◌≡◌, ℕ, List, None};
ghost use Rattle.policy.specs.Meaning.{meaning};
ghost use Rattle.model.specs.Setup.{Setup};
ghost use Rattle.model.specs.Records.{expiring};
ghost use Rattle.model.specs.Store.{Store, use_record, set_expiry};
ghost use Rattle.store.specs.Showing.{Shows, Held, found_record, pages_of};

use super::RecordStore;
use crate::found::Found;
use policy::Policy;

impl RecordStore {
    /// Notes a use of a record that was found: it goes to the front of its class if the policy says so.
    pub fn use_record<P: Policy>(&mut self, found: Found, policy: &P, second: u32)
        requires held { Held self.old found }
        ensures pages { pages_of self.new ≡ pages_of self.old }
        ensures shown { (setup : Setup) (n : ℕ) (memory : List ℕ) (s : Store) → Shows setup n self.old memory None s → Shows setup n self.new memory None (use_record setup (meaning P.Policy.NUMBER (P.Policy.evicting policy.now) (P.Policy.moving policy.now)) second (found_record self.old memory found) s) }
    {
        let tag = self.records.tag(found.row);
        if policy.moves(second, tag.moved) {
            self.records.bring_to_front(found.row, second);
        }
    }

    /// Sets the expiry of a record that was found.
    pub fn set_expiry(&mut self, found: Found, expiry: Option<u64>)
        requires held { Held self.old found }
        ensures pages { pages_of self.new ≡ pages_of self.old }
        ensures held { Held self.new found }
        ensures told { (memory : List ℕ) → found_record self.new memory found ≡ expiring expiry (found_record self.old memory found) }
        ensures shown { (setup : Setup) (n : ℕ) (memory : List ℕ) (s : Store) → Shows setup n self.old memory None s → Shows setup n self.new memory None (set_expiry setup expiry (found_record self.old memory found) s) }
    {
        let class = self.records.class_of(found.row);
        self.soonest.note(class, expiry);
        self.records.set_expiry(found.row, expiry);
    }
}
