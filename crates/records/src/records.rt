//! The records with the memory that holds them, but for page memory, which is lent to each call that reads or writes bytes.

ghost use Rattle.std.specs.Prelude.{vec_items};
ghost use Rattle.slabs.specs.Slabs.{rows_of, layout, Sound};
ghost use Rattle.records.specs.Indexes.{Indexes};

mod finding;
mod granting;
mod growing;
mod leaving;
mod linking;
mod opening;
mod reading;
mod telling;

use chained::Chains;
use slabs::Slab;

// `Holds` and `Granted` are of one call's row or grant, as this slab has it now, and `ShowsRecords` ties page memory that is lent:
// they stand at the calls, since no type holds both sides.

/// Chunks and their rows, and the hash table by which a row is found. A record is known by the number of its row, since rows
/// lie in memory of a fixed size that the owner hands over.
#[derive(Drop)]
pub struct Records {
    slab: Slab,
    table: Chains,
    heads: Vec<u32>,
    ghost sound: { ∥ Sound slab ∥₁ },
    ghost indexed: { ∥ Indexes (rows_of slab) (layout slab) table (vec_items heads) ∥₁ },
}
