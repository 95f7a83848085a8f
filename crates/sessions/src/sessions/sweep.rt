//! Sessions that were idle long enough are closed, from the back.

ghost use Rattle.std.specs.Prelude.{◌≡◌, List, length, MatchBool, filter};
ghost use Rattle.model.specs.Calls.{Session, busy, idle_enough};
ghost use Rattle.sessions.specs.Orders.{Descending, EndsBusy, LastIdle, Swept};
ghost use Rattle.sessions.specs.Showing.{Shows, table_size};

use crate::row::last_second;
use crate::sessions::Sessions;

impl Sessions {
    // Closes the session at the back if it was idle long enough, and tells whether it did.
    fn close_rearmost(&mut self, second: u32, limit: u16) -> bool
        ensures shown { (xs : List Session) → Shows self.old xs → MatchBool result ((ys : List Session) × LastIdle second limit xs ys × Shows self.new ys) (EndsBusy second limit xs × Shows self.new xs) }
        ensures size { table_size self.new ≡ table_size self.old }
    {
        // the answer is a `bool`, which `?` cannot hand on
        let Some(i) = self.roster.open.back() else {
            return false;
        };
        let until = u64::from(last_second(&self.rows, i)) + u64::from(limit);
        if u64::from(second) < until {
            return false;
        }
        self.roster.leave(&mut self.slots, &mut self.rows, i);
        true
    }

    /// Closes sessions from the back, up to the first that was not idle long enough, and tells how many. As long as
    /// the clock never runs back, these are all that were idle long enough.
    pub fn close_idle(&mut self, second: u32, limit: u16) -> u32
        ensures stops { (xs : List Session) → Shows self.old xs → (ys : List Session) × Swept second limit xs result ys × EndsBusy second limit ys × Shows self.new ys }
        ensures closes { (xs : List Session) → Shows self.old xs → Descending xs → Shows self.new (filter (busy second limit) xs) × (result ≡ length (filter (idle_enough second limit) xs)) }
        ensures size { table_size self.new ≡ table_size self.old }
    {
        let mut closed = 0;
        while self.close_rearmost(second, limit) {
            closed += 1;
        }
        closed
    }
}
