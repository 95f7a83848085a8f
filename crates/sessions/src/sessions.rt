//! The sessions with the memory that holds them.

ghost use Rattle.std.specs.Prelude.{List};
ghost use Rattle.model.specs.Calls.{Session};
ghost use Rattle.sessions.specs.Rosters.{Shown};

mod calls;
mod sweep;

use crate::roster::Roster;
use crate::row::SessionRow;

/// The open sessions, at most 64.
#[derive(Drop)]
pub struct Sessions {
    roster: Roster,
    slots: Vec<u32>,
    rows: Vec<SessionRow>,
    ghost ok: { ∥ ((xs : List Session) × Shown roster slots.items rows.items xs) ∥₁ },
}
