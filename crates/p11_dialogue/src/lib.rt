//! The part of the operator's console that needs no machine: what is typed, said, recorded and under way in a dialogue.
#![tactic(auto)]

mod activity;
mod asides;
mod buffer;
mod completing;
mod forms;
mod help;
mod keys_given;
mod line_kind;
mod lines;
mod misfit;
mod note;
mod reasons;
mod record;
mod run;
mod scripts;
mod settings;
mod slices;
mod stop;
mod tapes;
mod text;
mod typist;
mod want;

pub use activity::{Activity, ActivityCell};
pub use asides::{Asides, PROMPT};
pub use buffer::Buffer;
pub use completing::{WordKind, candidates, list, word_kind_at};
pub use help::help_on;
pub use keys_given::{GivenKeys, given_keys, take_escape, take_interrupt};
pub use line_kind::{LineKind, kind_of_line, script_name, verb_and_rest};
pub use lines::{drop_line, first_line, line_end};
pub use misfit::{add_meanings, why_no_line};
pub use note::{Note, Subject, Topic};
pub use reasons::{note_of, note_of_file, sentence};
pub use record::{record_keys, record_line, record_run, record_tick, record_unmount, recorded};
pub use run::{Course, RunProgress, course_of, pressed_on, run_of, talk_of};
pub use settings::{Manner, Settings, Trying, is_batch, is_person, tried_by};
pub use slices::{at_slice, show_slice, slice_turns};
pub use stop::{Stop, StopCause, put_stop, stop_of};
pub use tapes::note_of_tape;
pub use text::Text;
pub use typist::{Typist, outcome_activity};
pub use want::Want;
