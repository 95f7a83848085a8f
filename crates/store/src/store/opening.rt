//! Opening a store over rows and slots that it is handed.

ghost use Rattle.std.specs.Prelude.{◌≡◌, ℕ, ◌*◌, ◌≤◌, List, None, vec_len};
ghost use Rattle.plan.specs.Plans.{plan_sizes};
ghost use Rattle.model.specs.Setup.{Setup};
ghost use Rattle.model.specs.Calls.{empty};
ghost use Rattle.store.specs.Showing.{Shows, pages_of};

use super::RecordStore;
use crate::counts::Counts;
use crate::soonest::Soonest;
use plan::Plan;
use records::Records;
use slabs::Row;

impl RecordStore {
    /// A store with no records over these rows, 85 for each page, and slots. What they held before does not matter.
    pub fn open(plan: Plan, rows: Vec<Row>, slots: Vec<u32>) -> RecordStore
        requires least { 16 ≤ vec_len slots }
        requires limit { vec_len slots ≤ 16384 }
        ensures pages { (pages : ℕ) → vec_len rows ≡ 85 * pages → pages ≤ 256 → pages_of result ≡ pages }
        ensures shown { (setup : Setup) (memory : List ℕ) → setup.sizes ≡ plan_sizes plan → vec_len rows ≡ 85 * setup.pages → setup.pages ≤ 256 → setup.limit ≡ vec_len slots → Shows setup 0 result memory None (empty setup).store }
    {
        let records = Records::open(&plan, rows, slots);
        RecordStore {
            plan,
            records,
            cas: 0,
            counts: Counts::default(),
            soonest: Soonest::never(),
        }
    }
}
