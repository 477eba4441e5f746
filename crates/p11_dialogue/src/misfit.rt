// What is wrong with a text that is no line of the language.
use crate::forms::{Form, Part, form_at};
use crate::line_kind::{LineKind, kind_of_line, verb_and_rest};
use crate::note::Note;
use crate::reasons::sentence;
use crate::text::Text;
use p11_lines::{Fault, parse_line};
use p11_phrases::{Meant, WORDS, full_word, parted, trimmed, word_meant};
use std::alloc::Allocator;

/// The most bytes of a line.
const MOST_BYTES: usize = 4096;

/// The most words of a line that are looked at.
const MOST_WORDS: usize = 4098;

/// Why a text is no line of the language.
pub fn why_no_line<A: Allocator + Copy>(alloc: A, text: &[u8]) -> Note<A> {
    if text.len() > MOST_BYTES {
        return sentence(alloc, "the line has more than 4,096 bytes");
    }
    let (verb, rest) = verb_and_rest(text);
    let mut said = Text::new(alloc);
    match word_meant(verb) {
        Meant::Word(place) => add_misfit(alloc, &mut said, place, verb, rest, kind_of_line(text)),
        Meant::Several | Meant::Nothing => {
            said.add_quoted(verb);
            said.add(b" is no word of the console; help lists those that are");
        }
    }
    Note::of(said.into_vec())
}

/// What is wrong with a line whose first word is one, or begins one.
fn add_misfit<A: Allocator + Copy>(
    alloc: A,
    said: &mut Text<A>,
    place: usize,
    verb: &[u8],
    rest: &[u8],
    kind: LineKind,
) {
    let (Some(form), Some(word)) = (form_at(place), full_word(place)) else {
        return;
    };
    if verb != word {
        said.add_quoted(verb);
        said.add(b" is for a person at a terminal; a script has the word ");
        said.add(word);
        return;
    }
    match kind {
        LineKind::Language => add_wrong_word(alloc, said, form, word, rest),
        LineKind::Talk | LineKind::Once if form.more.is_some() => {
            said.add(b"the line of a script has a count: ");
            said.add(word);
            said.add(b" TURNS");
        }
        _ => {
            said.add(word);
            said.add(b" is for a person at the console, and not for a script");
        }
    }
}

/// Which word is missing, wrong, or one too many.
fn add_wrong_word<A: Allocator + Copy>(
    alloc: A,
    said: &mut Text<A>,
    form: &Form,
    word: &[u8],
    rest: &[u8],
) {
    let mut after = rest;
    for others in 0..MOST_WORDS {
        let (next, behind) = parted(after);
        after = trimmed(behind);
        match form.part(others) {
            Some(part) if next.is_empty() => {
                if others < form.wanted.len() {
                    said.add(word);
                    said.add(b" lacks ");
                    said.add(part.meaning().as_bytes());
                } else {
                    said.add(b"the line isn't in the console's language");
                }
                return;
            }
            Some(part) if others < form.most() => {
                if !fits(alloc, form, part, others, next) {
                    said.add_quoted(next);
                    said.add(b" isn't ");
                    said.add(part.meaning().as_bytes());
                    return;
                }
            }
            _ => {
                said.add_quoted(next);
                said.add(b" is one word too many: the line is ");
                said.add(form.shown.as_bytes());
                return;
            }
        }
    }
}

/// Whether a word may stand behind so many others: whether the form's example, with it in its place, is in the language.
fn fits<A: Allocator + Copy>(
    alloc: A,
    form: &Form,
    part: Part,
    others: usize,
    word: &[u8],
) -> bool {
    if part == Part::Topic {
        return true;
    }
    let mut text = Text::new(alloc);
    let (verb, mut rest) = verb_and_rest(form.example.as_bytes());
    // A name is one behind each word.
    text.add(if part == Part::Name && form.wanted.len() == 1 {
        b"load"
    } else {
        verb
    });
    for at in 0..form.wanted.len().max(others.saturating_add(1)) {
        let (other, behind) = parted(rest);
        rest = trimmed(behind);
        text.add(b" ");
        text.add(if at == others { word } else { other });
    }
    match parse_line(alloc, text.as_slice()) {
        Err(Fault::BadLine) => false,
        _ => true,
    }
}

/// Adds which words begin as the first one of a typed line does.
pub fn add_meanings<A: Allocator>(said: &mut Text<A>, typed: &[u8]) {
    let front = verb_and_rest(typed).0;
    let mut is_first = true;
    for place in 0..WORDS {
        if let Some(word) = full_word(place) {
            if word.starts_with(front) {
                said.add(if is_first { b": " } else { b", " });
                said.add(word);
                is_first = false;
            }
        }
    }
}
