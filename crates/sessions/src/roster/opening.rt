//! A roster with no session.

ghost use Rattle.std.specs.Prelude.{◌≡◌, ℕ, List, [], length};
ghost use Rattle.recency.specs.Lists.{Reads};
ghost use Rattle.chained.specs.Chains.{size};
ghost use Rattle.chained.specs.Growth.{start};
ghost use Rattle.sessions.specs.Rosters.{Shown};

use crate::roster::Roster;
use crate::row::SessionRow;
use chained::Chains;
use recency::RecencyList;

impl Roster {
    /// No session is open, and every row is free.
    pub fn open(slots: &mut [u32], rows: &mut [SessionRow]) -> Roster
        requires rows { length rows.old ≡ 64 }
        requires slots { length slots.old ≡ 64 }
        ensures shown { Shown result slots.new rows.new [] }
        ensures size { size result.callers ≡ start }
    {
        Roster {
            open: RecencyList::new(),
            free: all_of(rows),
            callers: Chains::open(slots),
            count: 0,
        }
    }
}

// A list of all rows.
fn all_of(rows: &mut [SessionRow]) -> RecencyList
    requires { length rows.old ≡ 64 }
    ensures { (ids : List ℕ) × Reads (λ row. row.next) (λ row. row.prev) result rows.new ids × (length ids ≡ 64) }
{
    let mut list = RecencyList::new();
    // the call takes the number of a row and all rows, so there is no element to go over
    for i in 0..64 {
        list.push_front(rows, i);
    }
    list
}
