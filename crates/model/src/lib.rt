// The reference table. What it is stands in specs/; no code runs here. Each function below is a promise that holds of every
// run of it: its contract is the statement, so that the crate is proved only with the statement's proof.
#![tactic(auto)]

ghost use Rattle.model.specs.Promises.{OpeningsArePlanned, ALargerTableKeepsAll, NothingLeavesWhileThereIsRoom, EverythingIsAccountedFor, TheStoryIsTrue, EachRecordLeavesOnce, ACallTellsWhatItDid};
ghost use Rattle.model.specs.Reasons.{EveryReasonIsTrue};

mod examples;

pub use examples::{examples_stand, runs_stand};

// Whatever opening is not refused has a lawful plan: the promises are of every such opening.
pub fn openings_are_planned()
    ensures { OpeningsArePlanned }
{}

// A record leaves alive and unasked only from a full class of a table with no free page, and not before its turn.
pub fn nothing_leaves_while_there_is_room()
    ensures { NothingLeavesWhileThereIsRoom }
{}

// Every record linked left by one of six ways or is held; no class is overfull, no page is lost, no key is held twice.
pub fn everything_is_accounted_for()
    ensures { EverythingIsAccountedFor }
{}

// What is told of records and pages is what the table holds.
pub fn the_story_is_true()
    ensures { TheStoryIsTrue }
{}

// Every record that was ever linked is held and never left, or is no longer held and left just once.
pub fn each_record_leaves_once()
    ensures { EachRecordLeavesOnce }
{}

// A call names each record that leaves in it, once, and no other; what is newly held was stored.
pub fn a_call_tells_what_it_did()
    ensures { ACallTellsWhatItDid }
{}

// A record is replaced, deleted, flushed or dropped only by a command that says so.
pub fn every_reason_is_true()
    ensures { EveryReasonIsTrue }
{}

// A larger table keeps all that a smaller one keeps.
pub fn a_larger_table_keeps_all()
    ensures { ALargerTableKeepsAll }
{}
