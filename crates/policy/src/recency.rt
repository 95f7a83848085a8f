// The policies that let a full class push records out. They differ in which uses move a record to the front.
ghost use Rattle.std.specs.Prelude.{◌+◌, true, false, nat_le};

use super::Policy;

// Every use moves the record.
#[derive(Clone, Copy)]
pub struct EveryUse;

impl Policy for EveryUse {
    const NUMBER: u8 = 0;

    ghost NUMBER = { 0 };

    ghost evicting = { λ _. true };

    ghost moving = { λ _ _ _. true };

    fn evicts(&self) -> bool {
        true
    }

    fn moves(&self, _second: u32, _moved: u32) -> bool {
        true
    }
}

// A use moves the record once sixty seconds have passed since it was stored or moved.
#[derive(Clone, Copy)]
pub struct SixtySeconds;

impl Policy for SixtySeconds {
    const NUMBER: u8 = 1;

    ghost NUMBER = { 1 };

    ghost evicting = { λ _. true };

    ghost moving = { λ _ second moved. nat_le (moved + 60) second };

    fn evicts(&self) -> bool {
        true
    }

    fn moves(&self, second: u32, moved: u32) -> bool {
        second.saturating_sub(moved) >= 60
    }
}

// No use moves the record: what was stored first is pushed out first.
#[derive(Clone, Copy)]
pub struct FirstIn;

impl Policy for FirstIn {
    const NUMBER: u8 = 2;

    ghost NUMBER = { 2 };

    ghost evicting = { λ _. true };

    ghost moving = { λ _ _ _. false };

    fn evicts(&self) -> bool {
        true
    }

    fn moves(&self, _second: u32, _moved: u32) -> bool {
        false
    }
}
