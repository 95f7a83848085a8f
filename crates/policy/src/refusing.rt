// The policy that keeps every record: a full class refuses new ones.
ghost use Rattle.std.specs.Prelude.{true, false};

use super::Policy;

// Every use moves the record, and no record is pushed out.
#[derive(Clone, Copy)]
pub struct Refusing;

impl Policy for Refusing {
    const NUMBER: u8 = 3;

    ghost NUMBER = { 3 };

    ghost evicting = { λ _. false };

    ghost moving = { λ _ _ _. true };

    fn evicts(&self) -> bool {
        false
    }

    fn moves(&self, _second: u32, _moved: u32) -> bool {
        true
    }
}
