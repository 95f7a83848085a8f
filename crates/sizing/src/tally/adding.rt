// Adding kinds of records up.
ghost use Rattle.std.specs.Prelude.{◌≡◌, List, []};
ghost use Rattle.sizing.specs.declared.kind.Kind.{Kind as Added};
ghost use Rattle.sizing.specs.Totals.{Tallied, place_in, taken};

use super::{Sum, Tally, Unplaced};
use crate::Kind;
use plan::{MOST_CLASSES, Plan, need};

impl Tally {
    // A tally of no records.
    pub fn new(plan: Plan) -> Tally
        ensures plan { result.plan ≡ plan }
        ensures total { Tallied result [] }
    {
        let nothing = Sum {
            records: 0,
            filled: 0,
        };
        Tally {
            plan,
            sums: [nothing; MOST_CLASSES],
        }
    }

    // Adds a kind of record to its class, where it has one and the class can count so many.
    pub fn add(&mut self, kind: Kind) -> Result<usize, Unplaced>
        ensures place { result ≡ place_in self.old kind }
        ensures plan { self.new.plan ≡ self.old.plan }
        ensures total { (kinds : List Added) → Tallied self.old kinds → Tallied self.new (taken result kind kinds) }
    {
        let bytes = need(kind.key, kind.block);
        let class = self.plan.class_of(bytes).ok_or(Unplaced::TooLarge)?;
        let sum = self.sums[class - 1];
        let records = sum
            .records
            .checked_add(kind.count)
            .ok_or(Unplaced::Uncountable)?;
        let filled = sum.filled + bytes as u128 * kind.count as u128;
        self.sums[class - 1] = Sum { records, filled };
        Ok(class)
    }
}
