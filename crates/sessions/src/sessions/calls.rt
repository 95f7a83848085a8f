//! What a table does with its sessions.

ghost use Rattle.std.specs.Prelude.{◌≡◌, ℕ, true, false, List, [], map, length, is_ok, Some, None, vec_len, MatchBool, filter, MatchOption, MatchResult, ◌≢◌, slice_index_or};
ghost use Rattle.recency.specs.Lists.{foremost};
ghost use Rattle.recency.specs.Numbers.{count as times};
ghost use Rattle.chained.specs.Growth.{start, grow_after, move_one};
ghost use Rattle.model.specs.Calls.{Session, of_caller, not_of, served};
ghost use Rattle.model.specs.Store.{first};
ghost use Rattle.sessions.specs.Rows.{session, session_of, sessions_at};
ghost use Rattle.sessions.specs.Rosters.{Placed};
ghost use Rattle.sessions.specs.Admissions.{has_session, refuse_entry};
ghost use Rattle.sessions.specs.Showing.{Shows, table_size};

use crate::roster::Roster;
use crate::row::SessionRow;
use crate::sessions::Sessions;
use chained::ByNumber;
use refusals::Refusal;

/// How many rows and slots there are, and so how many sessions can be open.
const ROWS: usize = 64;

/// The largest caller number.
const LAST_CALLER: u32 = 4_194_303;

// A caller and a second come together here alone: one names a session, the other is the clock's. `Shows` ties the reference table,
// which is no value of the program, and so stands at the calls.
impl Sessions {
    /// No session, over 64 rows and 64 slots; what these held before does not matter.
    pub fn open(mut rows: Vec<SessionRow>, mut slots: Vec<u32>) -> Option<Sessions>
        ensures { MatchOption result (vec_len rows ≡ 64 → vec_len slots ≢ 64) (λ s. (vec_len rows ≡ 64) × (vec_len slots ≡ 64) × Shows s [] × (table_size s ≡ start)) }
    {
        if rows.len() != ROWS || slots.len() != ROWS {
            return None;
        }
        let roster = Roster::open(&mut slots, &mut rows);
        Some(Sessions {
            roster,
            slots,
            rows,
        })
    }

    /// How many sessions are open.
    pub fn count(&self) -> u32
        ensures { (xs : List Session) → Shows self.now xs → result ≡ length xs }
    {
        self.roster.count
    }

    // The row of a caller's session, if it has one.
    fn find(&self, caller: u32) -> Option<u32>
        ensures { (ids free : List ℕ) → Placed self.now.roster self.now.slots.items self.now.rows.items ids free → MatchOption result (first (of_caller caller) (sessions_at self.now.rows.items ids) ≡ None) (λ i. (times i ids ≡ 1) × ((slice_index_or (map session_of self.now.rows.items) i (session 0 0)).caller ≡ caller)) }
    {
        self.roster
            .callers
            .find(&self.slots, &self.rows, &ByNumber, &caller)
    }

    // A free row, if there is one.
    fn spare_row(&self) -> Option<u32>
        ensures { (ids free : List ℕ) → Placed self.now.roster self.now.slots.items self.now.rows.items ids free → result ≡ foremost free }
    {
        self.roster.free.front()
    }

    /// Whether a caller has an open session.
    pub fn is_open(&self, caller: u32) -> bool
        ensures { (xs : List Session) → Shows self.now xs → result ≡ has_session caller xs }
    {
        self.find(caller).is_some()
    }

    /// Opens a session for a caller, in front of the others, unless it is refused.
    pub fn admit(&mut self, caller: u32, second: u32) -> Result<(), Refusal>
        ensures shown { (xs : List Session) → Shows self.old xs → MatchResult result (λ _. (refuse_entry caller xs ≡ None) × Shows self.new (served caller second xs)) (λ e. (refuse_entry caller xs ≡ Some e) × Shows self.new xs) }
        ensures grown { (xs : List Session) → Shows self.old xs → is_ok result ≡ true → table_size self.new ≡ grow_after (length (served caller second xs)) 64 (table_size self.old) }
        ensures same { is_ok result ≡ false → self.new ≡ self.old }
    {
        if caller > LAST_CALLER {
            return Err(Refusal::CallerTooLarge);
        }
        if self.is_open(caller) {
            return Err(Refusal::CallerOpen);
        }
        let i = self.spare_row().ok_or(Refusal::SessionsFull)?;
        self.roster
            .enter(&mut self.slots, &mut self.rows, i, caller, second);
        Ok(())
    }

    /// Notes that a caller's session was served at this second, so that it is in front, and tells whether it is open.
    pub fn serve(&mut self, caller: u32, second: u32) -> bool
        ensures shown { (xs : List Session) → Shows self.old xs → MatchBool result ((has_session caller xs ≡ true) × Shows self.new (served caller second xs)) ((has_session caller xs ≡ false) × Shows self.new xs) }
        ensures size { table_size self.new ≡ table_size self.old }
        ensures same { result ≡ false → self.new ≡ self.old }
    {
        // the answer is a `bool`, here and in `close`, which `?` cannot hand on
        let Some(i) = self.find(caller) else {
            return false;
        };
        self.roster.renew(&mut self.rows, i, caller, second);
        true
    }

    /// Closes a caller's session, and tells whether it was open.
    pub fn close(&mut self, caller: u32) -> bool
        ensures shown { (xs : List Session) → Shows self.old xs → MatchBool result ((has_session caller xs ≡ true) × Shows self.new (filter (not_of caller) xs)) ((has_session caller xs ≡ false) × Shows self.new xs) }
        ensures size { table_size self.new ≡ table_size self.old }
        ensures same { result ≡ false → self.new ≡ self.old }
    {
        let Some(i) = self.find(caller) else {
            return false;
        };
        self.roster.leave(&mut self.slots, &mut self.rows, i);
        true
    }

    /// One old slot of the table of callers is moved, if one is left.
    pub fn move_slot(&mut self)
        ensures shown { (xs : List Session) → Shows self.old xs → Shows self.new xs }
        ensures moved { table_size self.new ≡ move_one (table_size self.old) }
    {
        self.roster
            .callers
            .move_one(&mut self.slots, &mut self.rows);
    }
}
