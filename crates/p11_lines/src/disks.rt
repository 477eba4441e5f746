// From the words of a line about a drive to the line.
ghost use Rattle.std.specs.Prelude.{◌≡◌};
ghost use Rattle.std.specs.List.{list_all};
ghost use Rattle.p11_lines.specs.Grammar.{words_of, word_from, is_graphic, is_name, name_from, access_from};
ghost use Rattle.p11_lines.specs.Grammar.{two_words, word_and};
ghost use Rattle.p11_lines.specs.Calls.Reading.{Reads};

use crate::bytes::Bytes;
use crate::fault::Fault;
use crate::line::Line;
use crate::parse::{next_word, number};
use std::alloc::Allocator;

/// The number of a drive.
pub(crate) fn drive(digits: &[u8]) -> Option<u32>
    ensures { result ≡ word_from digits.now }
{
    number(8, 6, 0o177_777, digits)
}

/// Whether each byte is graphic: 041 to 176 (octal).
fn are_graphic(word: &[u8]) -> bool
    ensures { result ≡ list_all is_graphic word.now }
{
    word.iter().all(|byte| b'!' <= *byte && *byte <= b'~')
}

/// Whether a word is a name.
#[tactic(auto, unfolding(crate::specs::Grammar::is_name))]
pub(crate) fn is_name(word: &[u8]) -> bool
    ensures { result ≡ is_name word.now }
{
    if word.is_empty() {
        return false;
    }
    if word.len() > 255 {
        return false;
    }
    are_graphic(word)
}

/// Whether a pack is protected from writes.
#[tactic(auto, unfolding(crate::specs::Grammar::access_from))]
fn access(word: &[u8]) -> Option<bool>
    ensures { result ≡ access_from word.now }
{
    if word == b"rw".as_slice() {
        return Some(false);
    }
    if word == b"ro".as_slice() {
        return Some(true);
    }
    None
}

#[tactic(auto, unfolding(crate::specs::Grammar::word_and, crate::specs::Grammar::no_word, crate::specs::Grammar::name_from))]
pub(crate) fn mount<A: Allocator>(alloc: A, args: &[u8]) -> Result<Line<A>, Fault>
    ensures { Reads result (word_and word_from (two_words name_from access_from) Line.Mount (words_of args.now)) }
{
    let Some((first, args)) = next_word(args) else {
        return Err(Fault::BadLine);
    };
    let Some((name, args)) = next_word(args) else {
        return Err(Fault::BadLine);
    };
    let Some((third, args)) = next_word(args) else {
        return Err(Fault::BadLine);
    };
    if next_word(args).is_some() {
        return Err(Fault::BadLine);
    }
    let Some(drive) = drive(first) else {
        return Err(Fault::BadLine);
    };
    if !is_name(name) {
        return Err(Fault::BadLine);
    }
    let Some(protect) = access(third) else {
        return Err(Fault::BadLine);
    };
    let name = Bytes::from_vec(Vec::from_slice(alloc, name)?);
    Ok(Line::Mount {
        drive,
        name,
        protect,
    })
}

#[tactic(auto, unfolding(crate::specs::Grammar::word_and, crate::specs::Grammar::no_word, crate::specs::Grammar::name_from))]
pub(crate) fn save<A: Allocator>(alloc: A, args: &[u8]) -> Result<Line<A>, Fault>
    ensures { Reads result (two_words word_from name_from Line.Save (words_of args.now)) }
{
    let Some((first, args)) = next_word(args) else {
        return Err(Fault::BadLine);
    };
    let Some((name, args)) = next_word(args) else {
        return Err(Fault::BadLine);
    };
    if next_word(args).is_some() {
        return Err(Fault::BadLine);
    }
    let Some(drive) = drive(first) else {
        return Err(Fault::BadLine);
    };
    if !is_name(name) {
        return Err(Fault::BadLine);
    }
    let name = Bytes::from_vec(Vec::from_slice(alloc, name)?);
    Ok(Line::Save { drive, name })
}
