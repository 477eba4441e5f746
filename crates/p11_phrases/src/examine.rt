// What `examine` means with registers and ranges.
ghost use Rattle.std.specs.Prelude.{◌≡◌, ◌≤◌};
ghost use Rattle.p11_phrases.specs.Calls.{Gives};
ghost use Rattle.p11_phrases.specs.Words.{first_word, count_of};
ghost use Rattle.p11_phrases.specs.Spans.{span_of};
ghost use Rattle.p11_phrases.specs.Phrases.{shown, counted, registers_from, words_between, words_shown, words_to, registers_to, range_shown};
ghost use Rattle.p11_phrases.specs.Phrases.{one_examined, examined, arguments, behind_second};

use crate::lines::examine_line;
use crate::phrase::{Phrase, becoming, in_full, registers};
use crate::place::{ExaminedPlace, behind_words};
use crate::refusal::Refusal;
use crate::span::{Location, Span, are_registers, span_of};
use crate::verb::EXAMINE;
use crate::words::{count_of, parted, trimmed};
use std::alloc::Allocator;

/// The second word of a text, and what is behind it, without blanks at its front.
pub(crate) fn second(text: &[u8]) -> (&[u8], &[u8])
    ensures word { result.0.now ≡ first_word (arguments text.entry.now) }
    ensures rest { result.1.now ≡ behind_second text.entry.now }
{
    let (_, rest) = parted(text);
    let (word, rest) = parted(trimmed(rest));
    (word, trimmed(rest))
}

/// What a line means that begins with `examine`.
pub(crate) fn examined<A: Allocator + Copy>(
    alloc: A,
    place: ExaminedPlace,
    text: &[u8],
) -> Result<Phrase<A>, Refusal>
    ensures { Gives result (examined place text.now (behind_second text.now) (span_of A (first_word (arguments text.now)))) }
{
    let (word, rest) = second(text);
    match span_of(alloc, word) {
        None => in_full(alloc, place, EXAMINE, text),
        Some(Span::One(location)) => one_examined(alloc, place, text, rest, location),
        Some(Span::Range(first, last)) => {
            if rest.is_empty() {
                return range_shown(alloc, first, last);
            }
            Err(Refusal::NotCount)
        }
    }
}

/// One place is examined, or as many as a count says.
fn one_examined<A: Allocator + Copy>(
    alloc: A,
    place: ExaminedPlace,
    text: &[u8],
    rest: &[u8],
    location: Location,
) -> Result<Phrase<A>, Refusal>
    ensures { Gives result (one_examined place text.now rest.now location) }
{
    match location {
        Location::Word(_) => in_full(alloc, place, EXAMINE, text),
        Location::Register(number) => registers_from(alloc, number, rest),
        Location::Missing => Err(Refusal::NoRegister),
    }
}

/// A register, and those behind it.
fn registers_from<A: Allocator + Copy>(
    alloc: A,
    first: u16,
    rest: &[u8],
) -> Result<Phrase<A>, Refusal>
    ensures { Gives result (registers_from first rest.now) }
{
    if rest.is_empty() {
        return shown(alloc, u64::from(first), u64::from(first));
    }
    match count_of(alloc, rest) {
        Some(count) => shown(
            alloc,
            u64::from(first),
            (u64::from(first) + u64::from(count)).saturating_sub(1),
        ),
        None => Err(Refusal::NotCount),
    }
}

/// Registers from one to another, if they are there.
fn shown<A: Allocator>(alloc: A, first: u64, last: u64) -> Result<Phrase<A>, Refusal>
    ensures { Gives result (shown first last) }
{
    if !are_registers(first, last) {
        return Err(Refusal::NoRegister);
    }
    registers(alloc)
}

/// How many words there are from one address to another.
pub(crate) fn words_between(first: u32, last: u32) -> u32
    requires { first ≤ last }
    ensures { result ≡ words_between first last }
{
    (last - first) / 2 + 1
}

/// The words from one address to another.
fn words_shown<A: Allocator>(alloc: A, first: u32, last: u32) -> Result<Phrase<A>, Refusal>
    ensures { Gives result (words_shown first last) }
{
    if last < first {
        return Err(Refusal::Backwards);
    }
    let count = words_between(first, last);
    match examine_line(alloc, first, count) {
        Ok(text) => Ok(becoming(text, behind_words(first, count))),
        Err(_) => Err(Refusal::NoMemory),
    }
}

fn words_to<A: Allocator>(alloc: A, first: u32, last: Location) -> Result<Phrase<A>, Refusal>
    ensures { Gives result (words_to first last) }
{
    match last {
        Location::Word(last) => words_shown(alloc, first, last),
        Location::Register(_) => Err(Refusal::NoRegister),
        Location::Missing => Err(Refusal::NoRegister),
    }
}

fn registers_to<A: Allocator>(alloc: A, first: u16, last: Location) -> Result<Phrase<A>, Refusal>
    ensures { Gives result (registers_to first last) }
{
    match last {
        Location::Word(_) => Err(Refusal::NoRegister),
        Location::Register(last) => shown(alloc, u64::from(first), u64::from(last)),
        Location::Missing => Err(Refusal::NoRegister),
    }
}

/// The places from one to another.
fn range_shown<A: Allocator>(
    alloc: A,
    first: Location,
    last: Location,
) -> Result<Phrase<A>, Refusal>
    ensures { Gives result (range_shown first last) }
{
    match first {
        Location::Word(first) => words_to(alloc, first, last),
        Location::Register(first) => registers_to(alloc, first, last),
        Location::Missing => Err(Refusal::NoRegister),
    }
}
