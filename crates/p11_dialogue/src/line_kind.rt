// The words that are the console's own, and not of its language.
ghost use Rattle.std.specs.Prelude.{◌≡◌};
ghost use Rattle.p11_dialogue.specs.LineKinds.{verb_of, rest_of, is_alone, is_one_word, or_language, kind_of_line, script_name};

use p11_phrases::{parted, trimmed};

/// What a line is to the console.
#[derive(Clone, Copy, PartialEq, Eq)]
pub enum LineKind {
    /// `talk`, or `continue` alone.
    Talk,
    /// `step` alone.
    Once,
    Quit,
    Help,
    /// `do` and a name.
    Do,
    /// A line of the language, or none.
    Language,
}

/// The first word of a line, and what is behind it.
pub fn verb_and_rest(line: &[u8]) -> (&[u8], &[u8])
    ensures verb { result.0.now ≡ verb_of line.entry.now }
    ensures rest { result.1.now ≡ rest_of line.entry.now }
{
    let (verb, rest) = parted(trimmed(line));
    (verb, trimmed(rest))
}

fn or_language(kind: LineKind, is_so: bool) -> LineKind
    ensures { result ≡ or_language kind is_so }
{
    if is_so { kind } else { LineKind::Language }
}

/// Whether a text is one word.
fn is_one_word(text: &[u8]) -> bool
    ensures { result ≡ is_one_word text.now }
{
    let (word, rest) = parted(text);
    !word.is_empty() && word.len() <= 255 && trimmed(rest).is_empty()
}

/// What a line is to the console.
#[tactic(auto, unfolding(crate::specs::LineKinds::kind_of_line))]
pub fn kind_of_line(line: &[u8]) -> LineKind
    ensures { result ≡ kind_of_line line.now }
{
    let (verb, rest) = verb_and_rest(line);
    if verb == b"talk".as_slice() || verb == b"continue".as_slice() {
        return or_language(LineKind::Talk, rest.is_empty());
    }
    if verb == b"step".as_slice() {
        return or_language(LineKind::Once, rest.is_empty());
    }
    if verb == b"quit".as_slice() {
        return or_language(LineKind::Quit, rest.is_empty());
    }
    if verb == b"help".as_slice() {
        return LineKind::Help;
    }
    if verb == b"do".as_slice() {
        return or_language(LineKind::Do, is_one_word(rest));
    }
    LineKind::Language
}

/// The name behind `do`.
pub fn script_name(line: &[u8]) -> &[u8]
    ensures { result.now ≡ script_name line.entry.now }
{
    parted(verb_and_rest(line).1).0
}
