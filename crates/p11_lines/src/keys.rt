// From the text of a `key` line to the bytes that its keys give.
ghost use Rattle.std.specs.Prelude.{◌≡◌, ◌<◌, ◌≤◌, ◌∷◌, length, is_some, option_and_then, IfSome, MatchOption};
ghost use Rattle.p11_lines.specs.Grammar.{words_of, escape_from, bytes_from, one_word};
ghost use Rattle.p11_lines.specs.Calls.Reading.{GivesList, Reads};

use crate::bytes::Bytes;
use crate::escape::is_plain;
use crate::fault::Fault;
use crate::line::Line;
use crate::parse::{next_word, number};
use std::alloc::Allocator;

/// The byte that three octal digits write at the front of some bytes.
#[tactic(auto, unfolding(crate::specs::Grammar::escape_from, crate::specs::Grammar::number_from))]
fn escaped_byte(digits: &[u8]) -> Option<u8>
    ensures value { result ≡ escape_from digits.now }
    ensures there { IfSome result (λ byte. 3 ≤ length digits.now) }
{
    if digits.len() < 3 {
        return None;
    }
    let value = number(8, 3, 0o377, &digits[..3])?;
    u8::try_from(value).ok()
}

/// The first byte, and the others.
fn first_byte(text: &[u8]) -> (u8, &[u8])
    requires { 0 < length text.now }
    ensures { text.now ≡ result.0 ∷ result.1.now }
{
    (text[0], &text[1..])
}

/// The byte that the front of a text writes, and what follows it.
fn next_byte(text: &[u8]) -> Option<(u8, &[u8])>
    requires { 0 < length text.now }
    ensures bytes { MatchOption result (bytes_from text.now ≡ None)
        (λ found. bytes_from text.now ≡ option_and_then (λ bytes. Some (found.0 ∷ bytes)) (bytes_from found.1.now)) }
    ensures shorter { IfSome result (λ found. length found.1.now < length text.now) }
{
    let (byte, rest) = first_byte(text);
    if is_plain(byte) {
        return Some((byte, rest));
    }
    if byte != b'\\' {
        return None;
    }
    let escape = escaped_byte(rest)?;
    Some((escape, &rest[3..]))
}

/// Whether a word is a text.
fn is_text(text: &[u8]) -> bool
    ensures { result ≡ is_some (bytes_from text.now) }
{
    let mut rest = text;
    while !rest.is_empty() {
        let Some((_, after)) = next_byte(rest) else {
            return false;
        };
        rest = after;
    }
    true
}

/// The bytes that a text writes.
#[tactic(auto, using(crate::proofs::Lists::found_before_more, crate::proofs::Lists::found_before_all))]
fn bytes<A: Allocator>(alloc: A, text: &[u8]) -> Result<Vec<u8, A>, Fault>
    ensures { GivesList result (bytes_from text.now) }
{
    let mut bytes = Vec::new(alloc);
    let mut rest = text;
    while !rest.is_empty() {
        let Some((byte, after)) = next_byte(rest) else {
            return Err(Fault::BadLine);
        };
        bytes.push(byte)?;
        rest = after;
    }
    Ok(bytes)
}

#[tactic(auto, unfolding(crate::specs::Grammar::word_and, crate::specs::Grammar::no_word))]
pub(crate) fn key<A: Allocator>(alloc: A, args: &[u8]) -> Result<Line<A>, Fault>
    ensures { Reads result (one_word bytes_from Line.Key (words_of args.now)) }
{
    let Some((text, args)) = next_word(args) else {
        return Err(Fault::BadLine);
    };
    if next_word(args).is_some() {
        return Err(Fault::BadLine);
    }
    if !is_text(text) {
        return Err(Fault::BadLine);
    }
    let bytes = bytes(alloc, text)?;
    Ok(Line::Key {
        text: Bytes::from_vec(bytes),
    })
}
