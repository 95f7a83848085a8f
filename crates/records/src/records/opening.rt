//! Opening.

ghost use Rattle.std.specs.Prelude.{◌≡◌, ℕ, ◌≤◌, List, length, replicate, vec_len};
ghost use Rattle.plan.specs.Plans.{plan_sizes};
ghost use Rattle.chained.specs.Chains.{size};
ghost use Rattle.chained.specs.Growth.{start};
ghost use Rattle.slabs.specs.Openings.{Opened};
ghost use Rattle.model.specs.Setup.{Setup};
ghost use Rattle.model.specs.Store.{bare};
ghost use Rattle.records.specs.Kept.{NoGrant};
ghost use Rattle.records.specs.Showing.{ShowsRecords};

use super::Records;
use chained::Chains;
use plan::Plan;
use slabs::{Row, Slab};

impl Records {
    /// No records, over these rows, 85 for each page, and these slots. What they held before does not matter.
    pub fn open(plan: &Plan, rows: Vec<Row>, mut slots: Vec<u32>) -> Records
        requires least { 16 ≤ vec_len slots }
        requires limit { vec_len slots ≤ 16384 }
        ensures opened { Opened (plan_sizes plan.now) (vec_len rows) result.slab }
        ensures table { size result.table ≡ start }
        ensures slots { vec_len result.heads ≡ vec_len slots }
        ensures granted { NoGrant result.slab }
        ensures shown { (setup : Setup) (memory : List ℕ) → setup.sizes ≡ plan_sizes plan.now → ShowsRecords setup result.slab memory (replicate (length setup.sizes) bare) }
    {
        let slab = Slab::open(plan, rows);
        let table = Chains::open(&mut slots);
        Records {
            slab,
            table,
            heads: slots,
        }
    }
}
