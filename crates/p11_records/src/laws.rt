//! Laws of the record of a dialogue.
ghost use Rattle.p11_records.specs.Again.{RecordsAreScripts, RunsAreMadeAgain, TwoStepsAreOne};
ghost use Rattle.p11_records.specs.Dialogue.{DialoguesDoAgain};

use std::alloc::Allocator;

/// A run is made again by `step` with the turns that it made: this is what a record has of it.
pub fn a_run_is_made_again_by_its_turns<A: Allocator>()
    ensures { RunsAreMadeAgain A }
{}

/// Two steps, the first of which made all its turns, are one.
pub fn two_steps_are_one()
    ensures { TwoStepsAreOne }
{}

/// The record of a dialogue is a script that does it again: over the machine and the files with which the dialogue began, it
/// types the same bytes and comes to the same machine and files, whatever came to the console.
pub fn a_dialogue_is_its_record<A: Allocator>()
    ensures { DialoguesDoAgain A }
{}

/// A record is a script. What a session does with it are its lines, in order, each with the answer that it gets; reading
/// one may find no memory.
pub fn a_record_is_a_script<A: Allocator>()
    ensures { RecordsAreScripts A }
{}
