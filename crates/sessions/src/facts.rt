//! Facts on lists of sessions.

ghost use Rattle.sessions.specs.Admissions.{AsTheReferenceTable};
ghost use Rattle.sessions.specs.Orders.{OrderStays};

/// A list of sessions stays in the order of their last seconds, since the clock never runs back.
#[tactic(auto, using(crate::proofs::Sweeps::order_stays))]
pub fn order_stays()
    ensures { OrderStays }
{}

/// Whether a caller has a session, and why it is not admitted, is what the reference table says.
pub fn admission_is_the_reference_tables()
    ensures { AsTheReferenceTable }
{}
