// The words that may stand at the cursor.
use crate::text::Text;
use p11_line_editor::Editor;
use p11_phrases::{Meant, WORDS, full_word, parted, trimmed, word_meant};
use std::alloc::{AllocError, Allocator};

/// What may stand at the cursor.
#[derive(Clone, Copy, PartialEq, Eq)]
pub enum WordKind {
    /// A word with which a line begins.
    Verb,
    /// The name of a file.
    File,
    /// A register.
    Register,
    /// `rw` or `ro`.
    Access,
    /// Something that nothing completes.
    Other,
}

const REGISTERS: [&[u8]; 11] = [
    b"pc", b"ps", b"r0", b"r1", b"r2", b"r3", b"r4", b"r5", b"r6", b"r7", b"sp",
];

const ACCESS: [&[u8]; 2] = [b"ro", b"rw"];

/// The most words that are listed.
const MOST_LISTED: usize = 200;

/// What may stand at the cursor of a line.
pub fn word_kind_at(editor: &Editor) -> WordKind {
    if editor.is_first_word() {
        return WordKind::Verb;
    }
    let front = &editor.text()[..editor.cursor()];
    let (verb, rest) = parted(trimmed(front));
    match word_meant(verb) {
        Meant::Word(place) => kind_behind(place, words_before(rest)),
        Meant::Several | Meant::Nothing => WordKind::Other,
    }
}

/// What may stand behind the word at a place, and behind so many others.
fn kind_behind(place: usize, others: usize) -> WordKind {
    match (place, others) {
        (0, 1) | (2, 1) | (4, 0) | (19, 0) => WordKind::File,
        (0, 2) => WordKind::Access,
        (5, 0) | (6, 0) => WordKind::Register,
        (20, 0) => WordKind::Verb,
        _ => WordKind::Other,
    }
}

/// How many words stand before the one that is begun at the end of a text, or could be.
fn words_before(text: &[u8]) -> usize {
    let mut count = 0usize;
    let mut is_inside = false;
    for byte in text {
        let is_blank = *byte == b' ';
        if is_blank && is_inside {
            count = count.saturating_add(1);
        }
        is_inside = !is_blank;
    }
    count
}

fn is_graphic(byte: u8) -> bool {
    b'!' <= byte && byte <= b'~'
}

/// Adds a word, if it begins so and keys can give it.
fn add<'a, A: Allocator>(
    words: &mut Vec<&'a [u8], A>,
    front: &[u8],
    word: &'a [u8],
) -> Result<(), AllocError> {
    if word.starts_with(front) && word.iter().all(|byte| is_graphic(*byte)) {
        words.push(word)?;
    }
    Ok(())
}

/// The words of a kind that begin so, of which the host gave the names of files.
pub fn candidates<'a, A: Allocator>(
    alloc: A,
    kind: WordKind,
    front: &[u8],
    names: &[&'a [u8]],
) -> Result<Vec<&'a [u8], A>, AllocError> {
    let mut words = Vec::new(alloc);
    match kind {
        WordKind::Verb => {
            for place in 0..WORDS {
                if let Some(word) = full_word(place) {
                    add(&mut words, front, word)?;
                }
            }
        }
        WordKind::File => {
            for name in names {
                add(&mut words, front, *name)?;
            }
        }
        WordKind::Register => {
            for word in &REGISTERS {
                add(&mut words, front, *word)?;
            }
        }
        WordKind::Access => {
            for word in &ACCESS {
                add(&mut words, front, *word)?;
            }
        }
        WordKind::Other => {}
    }
    words.sort_unstable();
    Ok(words)
}

/// Lists words below the line, in as many rows as they take.
pub fn list<A: Allocator>(text: &mut Text<A>, columns: usize, words: &[&[u8]]) {
    let mut at = columns;
    for word in words.iter().take(MOST_LISTED) {
        let end = at.saturating_add(word.len()).saturating_add(2);
        if end < columns {
            text.add(b"  ");
            at = end;
        } else {
            text.add(b"\n");
            at = word.len();
        }
        text.add(word);
    }
    if words.len() > MOST_LISTED {
        text.add(b" ..");
    }
    text.add(b"\n");
}
