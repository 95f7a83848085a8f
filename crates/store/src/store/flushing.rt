//! All records leave.

ghost use Rattle.std.specs.Prelude.{◌≡◌, ℕ, ◌+◌, ◌^◌, ◌<◌, List, None};
ghost use Rattle.model.specs.Setup.{Setup};
ghost use Rattle.model.specs.Sound.{Numbered};
ghost use Rattle.model.specs.Store.{Store, Flushed, everything, remove_all};
ghost use Rattle.store.specs.Showing.{Shows, pages_of};
ghost use Rattle.store.specs.Flushing.{Emptied, Flushing};

use super::RecordStore;
use crate::counts::Why;

impl RecordStore {
    // Removes all records of a class, the front one first.
    fn flush_class(&mut self, class: usize)
        ensures pages { pages_of self.new ≡ pages_of self.old }
        ensures shown { (setup : Setup) (n : ℕ) (memory : List ℕ) (s : Store) (at : ℕ) → Shows setup n self.old memory None s → Numbered setup class → Emptied class s → Flushing setup n self.new memory at s (class + 1) }
    {
        while let Some(row) = self.records.foremost(class) {
            self.leave(row, Why::Flushed);
        }
    }

    /// Removes all records, class by class.
    pub fn flush(&mut self)
        ensures pages { pages_of self.new ≡ pages_of self.old }
        ensures shown { (setup : Setup) (n : ℕ) (memory : List ℕ) (s : Store) (at : ℕ) → n < 2 ^ 63 → Shows setup n self.old memory None s → Shows setup n self.new memory None (remove_all setup at Flushed (everything s) s) }
    {
        let classes = self.plan.classes();
        for class in 1..=classes {
            self.flush_class(class);
        }
    }
}
