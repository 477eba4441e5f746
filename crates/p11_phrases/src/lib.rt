//! Words for people: what a line that a person types at the console is in the console's language.
//!
//! A line of the language stays as it is. Beginnings of words, registers by name, ranges and an empty line become lines of it.
#![tactic(auto)]

mod deposit;
mod examine;
mod lines;
mod phrase;
mod place;
mod refusal;
mod span;
mod verb;
mod words;

pub use phrase::{Phrase, read_phrase};
pub use place::ExaminedPlace;
pub use refusal::Refusal;
pub use verb::{Meant, WORDS, full_word, word_meant};
pub use words::{parted, trimmed};
