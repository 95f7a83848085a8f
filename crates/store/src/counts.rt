//! The counts that stats tells.

ghost use Rattle.std.specs.Prelude.{◌≡◌, ◌+◌, ◌-◌, ◌^◌, ◌<◌, min};
ghost use Rattle.model.specs.Store.{count_left, count_linked, count_asked};
ghost use Rattle.store.specs.Counting.{counts_shown, why_of, gone, Leaves};

/// Records linked, records that left by each reason, and keys found and missed by get.
#[derive(Clone, Copy, Default)]
pub struct Counts {
    pub linked: u64,
    pub replaced: u64,
    pub deleted: u64,
    pub flushed: u64,
    pub expired: u64,
    pub evicted: u64,
    pub dropped: u64,
    pub hits: u64,
    pub misses: u64,
}

/// Why a record is removed.
#[derive(Clone, Copy)]
pub enum Why {
    Replaced,
    Deleted,
    Flushed,
    Expired,
    Evicted,
    Dropped,
}

// One more of the records that left: never more than were linked.
fn one_more(left: u64, linked: u64) -> u64
    ensures { left < linked → result ≡ left + 1 }
{
    if left < linked { left + 1 } else { left }
}

impl Counts {
    /// Counts a record that left.
    pub(crate) fn left(&mut self, why: Why)
        ensures { Leaves self.old → counts_shown self.new ≡ count_left (why_of why) (counts_shown self.old) }
    {
        // an array by reason would hide the counts' names, which stats tells
        match why {
            Why::Replaced => self.replaced = one_more(self.replaced, self.linked),
            Why::Deleted => self.deleted = one_more(self.deleted, self.linked),
            Why::Flushed => self.flushed = one_more(self.flushed, self.linked),
            Why::Expired => self.expired = one_more(self.expired, self.linked),
            Why::Evicted => self.evicted = one_more(self.evicted, self.linked),
            Why::Dropped => self.dropped = one_more(self.dropped, self.linked),
        }
    }

    /// Counts a record that was linked.
    pub(crate) fn stored(&mut self)
        ensures { self.old.linked + 1 < 2 ^ 64 → counts_shown self.new ≡ count_linked (counts_shown self.old) }
    {
        self.linked = self.linked.saturating_add(1);
    }

    /// Counts a key that was found, or missed.
    pub(crate) fn asked(&mut self, hit: bool)
        ensures { self.old.hits + self.old.misses + 1 < 2 ^ 64 → counts_shown self.new ≡ count_asked hit (counts_shown self.old) }
    {
        if hit {
            self.hits = self.hits.saturating_add(1);
        } else {
            self.misses = self.misses.saturating_add(1);
        }
    }

    /// How many records are held: those that were linked and did not leave.
    pub(crate) fn held(&self) -> u64
        ensures { result ≡ self.now.linked - gone self.now }
    {
        self.linked
            .saturating_sub(self.replaced)
            .saturating_sub(self.deleted)
            .saturating_sub(self.flushed)
            .saturating_sub(self.expired)
            .saturating_sub(self.evicted)
            .saturating_sub(self.dropped)
    }

    /// How many records are held, as far as 32 bits tell it.
    pub(crate) fn entries(&self) -> u32
        ensures { result ≡ min (self.now.linked - gone self.now) (2 ^ 32 - 1) }
    {
        u32::try_from(self.held()).unwrap_or(u32::MAX)
    }
}
