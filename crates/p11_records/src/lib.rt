//! What a record of a dialogue is worth: laws, each a function that does nothing, whose contract is the law.
#![tactic(auto)]

mod laws;

pub use laws::{
    a_dialogue_is_its_record, a_record_is_a_script, a_run_is_made_again_by_its_turns,
    two_steps_are_one,
};
