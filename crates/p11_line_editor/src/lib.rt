//! The line that a person types at the console: keys from bytes, editing, history, search, completion, and what the screen gets.
//!
//! Nothing here reads or writes. `Decoder` makes keys of bytes, `Editor::press` does what a key says, and `Editor::picture`
//! gives the bytes for the screen.
#![tactic(auto)]

mod completing;
mod decoder;
mod editor;
mod finding;
mod history;
mod key;
mod line;
mod outcome;
mod picture;
mod recalling;
mod shared;
mod showing;
mod stock;
mod words;

pub use decoder::Decoder;
pub use editor::Editor;
pub use history::History;
pub use key::Key;
pub use outcome::Outcome;
pub use picture::Picture;
