ghost use Rattle.std.specs.Prelude.{◌≡◌, ◌≤◌, true, take};
ghost use Rattle.plan.specs.Sizes.{lawful, sizes_of};

mod asking;
mod making;

// The bytes of a page.
pub const PAGE: u32 = 4096;

// The most classes that a plan has.
pub const MOST_CLASSES: usize = 32;

// A lawful plan, and nothing else: whoever has one may rely on it without a test.
#[derive(Clone, Copy)]
pub struct Plan {
    first: u32,
    percent: u32,
    // how many of the sizes are classes: a vector knows its length, but a plan is copied, and no vector is `Copy`
    count: usize,
    sizes: [u32; MOST_CLASSES],
    ghost fair: { lawful first percent ≡ true },
    ghost few: { count ≤ 32 },
    ghost made: { take count sizes ≡ sizes_of first percent },
}
