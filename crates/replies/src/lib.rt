//! Every text that the table answers, written into the caller's buffer.

#![tactic(auto)]

pub mod kinds;
pub mod limits;
pub mod output;
