// What a typed line means.
ghost use Rattle.std.specs.Prelude.{◌≡◌, ◌∷◌, ◌++◌, [], Some, None, IfOk, slice_get, unwrap_or, if◌then◌else◌};
ghost use Rattle.p11_lines.specs.Grammar.{line_from};
ghost use Rattle.p11_lines.specs.declared.line.Line.TheVariants as line;
ghost use Rattle.p11_phrases.specs.Calls.{Gives};
ghost use Rattle.p11_phrases.specs.Verbs.{full_words};
ghost use Rattle.p11_phrases.specs.Phrases.{place_behind, stays, next, full, in_full, by_word, by_meant, phrase_of, meaning, becomes, spelled};

use crate::deposit::deposited;
use crate::examine::examined;
use crate::lines::{ended, examine_line, regs_line, spelled_line};
use crate::place::{ExaminedPlace, behind_line, behind_text, behind_words};
use crate::refusal::Refusal;
use crate::span::is_register_address;
use crate::verb::{DEPOSIT, EXAMINE, Meant, full_word, word_meant};
use crate::words::{parted, trimmed};
use p11_lines::{Bytes, Fault, Line, NoMemory, parse_line};
use std::alloc::{Allocator, Global};

/// What a typed line means.
#[derive(Drop)]
pub struct Phrase<A: Allocator = Global> {
    /// The lines that stand in its place, each with LF; none where it is done as it was typed.
    pub lines: Option<Bytes<A>>,
    /// What an empty line shows then.
    pub place: ExaminedPlace,
}

/// The line as it was typed.
pub(crate) fn standing<A: Allocator>(place: ExaminedPlace) -> Phrase<A>
    ensures { result ≡ record { lines = None; place = place } }
{
    Phrase { lines: None, place }
}

/// Lines in its place.
pub(crate) fn becoming<A: Allocator>(text: Vec<u8, A>, place: ExaminedPlace) -> Phrase<A>
    ensures { result ≡ record { lines = Some text.items; place = place } }
{
    Phrase {
        lines: Some(Bytes::from_vec(text)),
        place,
    }
}

/// Whether a line of the language stays as it is.
fn stays<A: Allocator>(line: &Line<A>) -> bool
    ensures { result ≡ stays (Some line.now) }
{
    match line {
        Line::Examine { address, count: _ } => !is_register_address(*address),
        Line::Deposit { address, words: _ } => !is_register_address(*address),
        _ => true,
    }
}

/// What an empty line shows after a line of the language that stays as it is.
fn kept_place<A: Allocator>(
    alloc: A,
    place: ExaminedPlace,
    typed: &[u8],
) -> Result<Option<ExaminedPlace>, NoMemory>
    ensures { IfOk result (λ kept. kept
        ≡ (if stays (line_from {A = A} typed.now) then Some (place_behind place (line_from {A = A} typed.now)) else None)) }
{
    match parse_line(alloc, typed) {
        Ok(line) => {
            if stays(&line) {
                return Ok(Some(behind_line(place, &line)));
            }
            Ok(None)
        }
        Err(Fault::BadLine) => Ok(None),
        Err(_) => Err(NoMemory),
    }
}

/// What a typed line means.
///
/// A line of the language stays as it is, but one that examines or deposits at 777700 to 777717, where the registers are.
/// Every refusal but that of want of memory depends on the line alone.
#[tactic(auto, unfolding(crate::specs::Phrases::meaning))]
pub fn read_phrase<A: Allocator + Copy>(
    alloc: A,
    place: ExaminedPlace,
    typed: &[u8],
) -> Result<Phrase<A>, Refusal>
    ensures { Gives result (meaning place typed.now) }
{
    let Ok(kept) = kept_place(alloc, place, typed) else {
        return Err(Refusal::NoMemory);
    };
    match kept {
        Some(place) => Ok(standing(place)),
        None => phrase_of(alloc, place, trimmed(typed)),
    }
}

/// What a text means that is no line of the language.
#[tactic(auto, unfolding(crate::specs::Phrases::phrase_of))]
fn phrase_of<A: Allocator + Copy>(
    alloc: A,
    place: ExaminedPlace,
    text: &[u8],
) -> Result<Phrase<A>, Refusal>
    ensures { Gives result (phrase_of place text.now) }
{
    if text.is_empty() {
        return next(alloc, place);
    }
    if text[0] == b'#' {
        return Ok(standing(place));
    }
    by_meant(alloc, place, text, word_meant(parted(text).0))
}

/// What an empty line means.
fn next<A: Allocator>(alloc: A, place: ExaminedPlace) -> Result<Phrase<A>, Refusal>
    ensures { Gives result (next place) }
{
    match place {
        ExaminedPlace::Nowhere => Ok(standing(ExaminedPlace::Nowhere)),
        ExaminedPlace::Word { address } => match examine_line(alloc, address, 1) {
            Ok(text) => Ok(becoming(text, behind_words(address, 1))),
            Err(_) => Err(Refusal::NoMemory),
        },
        ExaminedPlace::Registers => registers(alloc),
    }
}

/// The registers in a line's place.
pub(crate) fn registers<A: Allocator>(alloc: A) -> Result<Phrase<A>, Refusal>
    ensures { Gives result (becomes (line.Regs ∷ []) ExaminedPlace.Registers) }
{
    match regs_line(alloc) {
        Ok(text) => Ok(becoming(text, ExaminedPlace::Registers)),
        Err(_) => Err(Refusal::NoMemory),
    }
}

/// What a text means, by what its first word stands for.
fn by_meant<A: Allocator + Copy>(
    alloc: A,
    place: ExaminedPlace,
    text: &[u8],
    meant: Meant,
) -> Result<Phrase<A>, Refusal>
    ensures { Gives result (by_meant place text.now meant) }
{
    match meant {
        Meant::Word(word) => by_word(alloc, place, text, word),
        Meant::Several => Err(Refusal::Ambiguous),
        Meant::Nothing => Ok(standing(place)),
    }
}

/// What a text means, by its full first word.
fn by_word<A: Allocator + Copy>(
    alloc: A,
    place: ExaminedPlace,
    text: &[u8],
    word: usize,
) -> Result<Phrase<A>, Refusal>
    ensures { Gives result (by_word place text.now word) }
{
    if word == EXAMINE {
        return examined(alloc, place, text);
    }
    if word == DEPOSIT {
        return deposited(alloc, place, text);
    }
    in_full(alloc, place, word, text)
}

/// The full word at a place.
fn full(place: usize) -> &'static [u8]
    ensures { result.now ≡ full place }
{
    match full_word(place) {
        Some(word) => word,
        None => b"",
    }
}

/// A line with its first word in full.
#[tactic(auto, unfolding(crate::specs::Phrases::in_full))]
pub(crate) fn in_full<A: Allocator + Copy>(
    alloc: A,
    place: ExaminedPlace,
    word: usize,
    text: &[u8],
) -> Result<Phrase<A>, Refusal>
    ensures { Gives result (in_full place word text.now) }
{
    let (first, rest) = parted(text);
    let word = full(word);
    if first == word {
        return Ok(standing(place));
    }
    spelled(alloc, place, word, rest)
}

/// A word and what is behind it in the line's place.
fn spelled<A: Allocator + Copy>(
    alloc: A,
    place: ExaminedPlace,
    word: &[u8],
    rest: &[u8],
) -> Result<Phrase<A>, Refusal>
    ensures { Gives result (spelled (word.now ++ rest.now) place) }
{
    let Ok(line) = spelled_line(alloc, word, rest) else {
        return Err(Refusal::NoMemory);
    };
    let place = behind_text(alloc, place, line.as_slice());
    match ended(line) {
        Ok(text) => Ok(becoming(text, place)),
        Err(_) => Err(Refusal::NoMemory),
    }
}
