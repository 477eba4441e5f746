// What `deposit` means with registers and ranges.
ghost use Rattle.std.specs.Prelude.{◌≡◌, Some};
ghost use Rattle.p11_phrases.specs.Calls.{Gives};
ghost use Rattle.p11_phrases.specs.Words.{first_word, words_of_text};
ghost use Rattle.p11_phrases.specs.Spans.{span_of};
ghost use Rattle.p11_phrases.specs.Phrases.{set_from, words_set, words_filled, registers_filled, words_filled_to, registers_filled_to};
ghost use Rattle.p11_phrases.specs.Phrases.{range_filled, filled, one_deposited, deposited, arguments, behind_second};

use crate::examine::{second, words_between};
use crate::lines::{copies, fill_line, set_lines, words_of_text};
use crate::phrase::{Phrase, becoming, in_full};
use crate::place::ExaminedPlace;
use crate::refusal::Refusal;
use crate::span::{Location, Span, are_registers, span_of};
use crate::verb::DEPOSIT;
use std::alloc::Allocator;

/// The most words of a deposit (decimal).
const MOST_WORDS: u32 = 64;

/// What a line means that begins with `deposit`.
pub(crate) fn deposited<A: Allocator + Copy>(
    alloc: A,
    place: ExaminedPlace,
    text: &[u8],
) -> Result<Phrase<A>, Refusal>
    ensures { Gives result (deposited place text.now (behind_second text.now) (span_of A (first_word (arguments text.now)))) }
{
    let (word, rest) = second(text);
    match span_of(alloc, word) {
        None => in_full(alloc, place, DEPOSIT, text),
        Some(Span::One(location)) => one_deposited(alloc, place, text, rest, location),
        Some(Span::Range(first, last)) => filled(alloc, place, first, last, rest),
    }
}

/// Words are deposited from one place on.
fn one_deposited<A: Allocator + Copy>(
    alloc: A,
    place: ExaminedPlace,
    text: &[u8],
    rest: &[u8],
    location: Location,
) -> Result<Phrase<A>, Refusal>
    ensures { Gives result (one_deposited place text.now rest.now location) }
{
    match location {
        Location::Word(_) => in_full(alloc, place, DEPOSIT, text),
        Location::Register(number) => words_set(alloc, place, number, rest),
        Location::Missing => Err(Refusal::NoRegister),
    }
}

/// Words are put into registers from one on.
fn words_set<A: Allocator + Copy>(
    alloc: A,
    place: ExaminedPlace,
    first: u16,
    rest: &[u8],
) -> Result<Phrase<A>, Refusal>
    ensures { Gives result (words_set place first (words_of_text A rest.now)) }
{
    match words_of_text(alloc, rest) {
        Ok(words) => set_from(alloc, place, first, words.as_slice()),
        Err(Refusal::NotWord) => Err(Refusal::NotWord),
        Err(_) => Err(Refusal::NoMemory),
    }
}

/// Words are put into registers, if they are there.
fn set_from<A: Allocator + Copy>(
    alloc: A,
    place: ExaminedPlace,
    first: u16,
    words: &[u16],
) -> Result<Phrase<A>, Refusal>
    ensures { Gives result (set_from place first words.now) }
{
    let last = (u64::from(first) + words.len() as u64).saturating_sub(1);
    if !are_registers(u64::from(first), last) {
        return Err(Refusal::NoRegister);
    }
    match set_lines(alloc, first, words) {
        Ok(text) => Ok(becoming(text, place)),
        Err(_) => Err(Refusal::NoMemory),
    }
}

/// One word is put into each place of a range.
fn filled<A: Allocator + Copy>(
    alloc: A,
    place: ExaminedPlace,
    first: Location,
    last: Location,
    rest: &[u8],
) -> Result<Phrase<A>, Refusal>
    ensures { Gives result (filled place first last (words_of_text A rest.now)) }
{
    match words_of_text(alloc, rest) {
        Ok(words) => filled_with(alloc, place, first, last, words.as_slice()),
        Err(Refusal::NotWord) => Err(Refusal::NotWord),
        Err(_) => Err(Refusal::NoMemory),
    }
}

/// This word is put into each place of a range, if it is one.
fn filled_with<A: Allocator + Copy>(
    alloc: A,
    place: ExaminedPlace,
    first: Location,
    last: Location,
    words: &[u16],
) -> Result<Phrase<A>, Refusal>
    ensures { Gives result (filled place first last (Some words.now)) }
{
    if words.len() != 1 {
        return Err(Refusal::OneWord);
    }
    range_filled(alloc, place, words[0], first, last)
}

fn range_filled<A: Allocator + Copy>(
    alloc: A,
    place: ExaminedPlace,
    word: u16,
    first: Location,
    last: Location,
) -> Result<Phrase<A>, Refusal>
    ensures { Gives result (range_filled place word first last) }
{
    match first {
        Location::Word(first) => words_filled_to(alloc, place, word, first, last),
        Location::Register(first) => registers_filled_to(alloc, place, word, first, last),
        Location::Missing => Err(Refusal::NoRegister),
    }
}

fn words_filled_to<A: Allocator + Copy>(
    alloc: A,
    place: ExaminedPlace,
    word: u16,
    first: u32,
    last: Location,
) -> Result<Phrase<A>, Refusal>
    ensures { Gives result (words_filled_to place word first last) }
{
    match last {
        Location::Word(last) => words_filled(alloc, place, word, first, last),
        Location::Register(_) => Err(Refusal::NoRegister),
        Location::Missing => Err(Refusal::NoRegister),
    }
}

fn registers_filled_to<A: Allocator + Copy>(
    alloc: A,
    place: ExaminedPlace,
    word: u16,
    first: u16,
    last: Location,
) -> Result<Phrase<A>, Refusal>
    ensures { Gives result (registers_filled_to place word first last) }
{
    match last {
        Location::Word(_) => Err(Refusal::NoRegister),
        Location::Register(last) => registers_filled(alloc, place, word, first, last),
        Location::Missing => Err(Refusal::NoRegister),
    }
}

/// One word is put into the words from one address to another.
fn words_filled<A: Allocator + Copy>(
    alloc: A,
    place: ExaminedPlace,
    word: u16,
    first: u32,
    last: u32,
) -> Result<Phrase<A>, Refusal>
    ensures { Gives result (words_filled place word first last) }
{
    if last < first {
        return Err(Refusal::Backwards);
    }
    let count = words_between(first, last);
    if count > MOST_WORDS {
        return Err(Refusal::TooMany);
    }
    let Ok(words) = copies(alloc, word, count as usize) else {
        return Err(Refusal::NoMemory);
    };
    match fill_line(alloc, first, words) {
        Ok(text) => Ok(becoming(text, place)),
        Err(_) => Err(Refusal::NoMemory),
    }
}

/// One word is put into the registers from one to another.
fn registers_filled<A: Allocator + Copy>(
    alloc: A,
    place: ExaminedPlace,
    word: u16,
    first: u16,
    last: u16,
) -> Result<Phrase<A>, Refusal>
    ensures { Gives result (registers_filled place word first last) }
{
    if !are_registers(u64::from(first), u64::from(last)) {
        return Err(Refusal::NoRegister);
    }
    let Ok(words) = copies(
        alloc,
        word,
        (u32::from(last) + 1).saturating_sub(u32::from(first)) as usize,
    ) else {
        return Err(Refusal::NoMemory);
    };
    match set_lines(alloc, first, words.as_slice()) {
        Ok(text) => Ok(becoming(text, place)),
        Err(_) => Err(Refusal::NoMemory),
    }
}
