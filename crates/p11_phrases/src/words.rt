// The words of a typed line, and the numbers that they write.
ghost use Rattle.std.specs.Prelude.{◌≡◌, ◌≤◌, ◌+◌, ◌++◌, length, not, position, Some};
ghost use Rattle.p11_lines.specs.Grammar.{is_blank};
ghost use Rattle.p11_phrases.specs.Words.{trimmed, first_word, behind_word, address_in, count_in, address_of, count_of};

use arrayvec::ArrayVec;
use p11_lines::{Line, parse_line};
use std::alloc::Allocator;

/// A short line of the language.
type ShortLine = ArrayVec<u8, 20>;

fn is_blank(byte: u8) -> bool
    ensures { result ≡ is_blank byte }
{
    byte == b' ' || byte == b'\t'
}

/// The place of the first byte that isn't a blank.
fn first_graph(text: &[u8]) -> Option<usize>
    ensures { result ≡ position (λ byte. not (is_blank byte)) text.now }
{
    text.iter().position(|byte| !is_blank(*byte))
}

/// The place of the first blank.
fn first_blank(text: &[u8]) -> Option<usize>
    ensures { result ≡ position is_blank text.now }
{
    text.iter().position(|byte| is_blank(*byte))
}

/// A text without the blanks at its front.
pub fn trimmed(text: &[u8]) -> &[u8]
    ensures { result.now ≡ trimmed text.entry.now }
{
    match first_graph(text) {
        Some(place) => &text[place..],
        None => &text[text.len()..],
    }
}

/// The first word of a text that has no blank at its front, and what is behind it.
pub fn parted(text: &[u8]) -> (&[u8], &[u8])
    ensures word { result.0.now ≡ first_word text.entry.now }
    ensures rest { result.1.now ≡ behind_word text.entry.now }
{
    match first_blank(text) {
        Some(place) => (&text[..place], &text[place..]),
        None => (&text[..text.len()], &text[text.len()..]),
    }
}

/// The address of a line that examines.
fn address_in<A: Allocator>(line: &Line<A>) -> Option<u32>
    ensures { result ≡ address_in (Some line.now) }
{
    match line {
        Line::Examine { address, count: _ } => Some(*address),
        _ => None,
    }
}

/// The count of a line that examines.
fn count_in<A: Allocator>(line: &Line<A>) -> Option<u32>
    ensures { result ≡ count_in (Some line.now) }
{
    match line {
        Line::Examine { address: _, count } => Some(*count),
        _ => None,
    }
}

/// The line of two parts, which have 20 bytes at most.
fn short_line(front: &[u8], back: &[u8]) -> ShortLine
    requires { length front.now + length back.now ≤ 20 }
    ensures { result.items ≡ front.now ++ back.now }
{
    let mut line = ShortLine::new();
    let _ = line.try_extend_from_slice(front);
    let _ = line.try_extend_from_slice(back);
    line
}

/// The address that a word is.
#[tactic(auto, using(crate::proofs::Unread::no_address), unfolding(crate::specs::Words::address_of))]
pub(crate) fn address_of<A: Allocator>(alloc: A, word: &[u8]) -> Option<u32>
    ensures { result ≡ address_of A word.now }
{
    if word.len() > 6 {
        return None;
    }
    match parse_line(alloc, short_line(b"examine ", word).as_slice()) {
        Ok(line) => address_in(&line),
        Err(_) => None,
    }
}

/// The count that a word is.
#[tactic(auto, using(crate::proofs::Unread::no_count), unfolding(crate::specs::Words::count_of))]
pub(crate) fn count_of<A: Allocator>(alloc: A, word: &[u8]) -> Option<u32>
    ensures { result ≡ count_of A word.now }
{
    if word.len() > 9 {
        return None;
    }
    match parse_line(alloc, short_line(b"examine 0 ", word).as_slice()) {
        Ok(line) => count_in(&line),
        Err(_) => None,
    }
}
