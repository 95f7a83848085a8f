// When a use moves a record to the front, and whether a full class pushes records out.
#![tactic(auto)]

ghost use Rattle.std.specs.Prelude.{ℕ, ◌≡◌, Bool};
ghost use Rattle.policy.specs.Meaning.{meaning};

mod recency;
mod refusing;

pub use recency::{EveryUse, FirstIn, SixtySeconds};
pub use refusing::Refusing;

// A policy's meaning is its ghost members; its answers are that meaning, and asking leaves it as it was. Each policy is
// a type of its own, and not one type with const parameters: callers pass it by its name, and an alias of a struct
// with no fields is no value.
pub trait Policy {
    // the number that the table keeps from its opening, fixed for the policy
    const NUMBER: u8;

    ghost NUMBER: { ℕ };

    ghost evicting: { Self → Bool };

    ghost moving: { Self → ℕ → ℕ → Bool };

    // Whether a record may be pushed out of a full class.
    fn evicts(&self) -> bool
        ensures { result ≡ evicting self.now };

    // Whether a use at `second` moves a record that was last stored or moved at `moved` to the front.
    fn moves(&self, second: u32, moved: u32) -> bool
        ensures { result ≡ moving self.now second moved };

    // The policy's number.
    final fn own_number() -> u8
        ensures { result ≡ NUMBER }
    {
        Self::NUMBER
    }
}

// What a policy answers at one use of a record.
#[derive(Clone, Copy)]
pub struct Behaviour {
    pub number: u8,
    pub evicts: bool,
    pub moves: bool,
}

// All that a policy is asked about a use at `second` of a record that was last stored or moved at `moved`.
pub fn answers<P: Policy>(policy: &P, second: u32, moved: u32) -> Behaviour
    ensures number { result.number ≡ (meaning P.Policy.NUMBER (P.Policy.evicting policy.now) (P.Policy.moving policy.now)).number }
    ensures evicts { result.evicts ≡ (meaning P.Policy.NUMBER (P.Policy.evicting policy.now) (P.Policy.moving policy.now)).evicting }
    ensures moves { result.moves ≡ (meaning P.Policy.NUMBER (P.Policy.evicting policy.now) (P.Policy.moving policy.now)).moving second moved }
{
    Behaviour {
        number: P::own_number(),
        evicts: policy.evicts(),
        moves: policy.moves(second, moved),
    }
}
