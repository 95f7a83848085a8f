//! From which second on a class may hold a dead record.

ghost use Rattle.std.specs.Prelude.{◌≡◌, ◌+◌, ◌-◌, ◌^◌, ◌<◌, replicate, Option, nat_le, slice_index, slice_set};
ghost use Rattle.plan.specs.Plans.{plan_sizes};
ghost use Rattle.plan.specs.Classes.{class_of};
ghost use Rattle.store.specs.Soonest.{noting, sooner};

use plan::{MOST_CLASSES, Plan};

/// The plan's most classes, and one for class 0, none.
const CLASSES: usize = MOST_CLASSES + 1;

/// For each class a second before which none of its records is dead.
#[derive(Drop)]
pub(crate) struct Soonest {
    seconds: [u64; CLASSES],
}

impl Soonest {
    /// The seconds of a store with no records: none will ever be dead.
    pub(crate) fn never() -> Soonest
        ensures { result.seconds ≡ replicate 33 (2 ^ 64 - 1) }
    {
        Soonest {
            seconds: [u64::MAX; CLASSES],
        }
    }

    /// Says whether a class may have a record that is dead at a second.
    pub(crate) fn may_have_dead(&self, class: usize, second: u32) -> bool
        requires { class < 33 }
        ensures { result ≡ nat_le (slice_index self.now.seconds class) second }
    {
        self.seconds[class] <= u64::from(second)
    }

    /// Notes that no record of a class is dead at a second: the next walk waits for a later one.
    pub(crate) fn wait_past(&mut self, class: usize, second: u32)
        requires { class < 33 }
        ensures { self.new.seconds ≡ slice_set self.old.seconds class (second + 1) }
    {
        self.seconds[class] = u64::from(second) + 1;
    }

    /// Notes the expiry of a record of a class.
    pub(crate) fn note(&mut self, class: usize, expiry: Option<u64>)
        requires { class < 33 }
        ensures { self.new.seconds ≡ slice_set self.old.seconds class (sooner (slice_index self.old.seconds class) expiry) }
    {
        let bound = self.seconds[class];
        self.seconds[class] = expiry.map_or(bound, |end| bound.min(end));
    }

    /// Notes the expiry of a new record for its class, by the room that it needs.
    pub(crate) fn note_new(&mut self, plan: &Plan, need: u64, expiry: Option<u64>)
        ensures { self.new.seconds ≡ noting (class_of need (plan_sizes plan.now)) expiry self.old.seconds }
    {
        if let Some(class) = plan.class_of(need) {
            self.note(class, expiry);
        }
    }
}
