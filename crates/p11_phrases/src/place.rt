// What an empty line shows.
ghost use Rattle.std.specs.Prelude.{◌≡◌, Some};
ghost use Rattle.p11_lines.specs.Grammar.{line_from};
ghost use Rattle.p11_phrases.specs.Phrases.{behind_words, place_behind};

use p11_lines::{Line, parse_line};
use std::alloc::Allocator;

/// What an empty line shows, by what was examined last.
#[derive(Clone, Copy, PartialEq, Eq)]
pub enum ExaminedPlace {
    /// Nothing was examined.
    Nowhere,
    /// The word at this address, which is behind those that were examined.
    Word { address: u32 },
    /// The registers.
    Registers,
}

/// What an empty line shows after so many words from an address on.
pub(crate) fn behind_words(address: u32, count: u32) -> ExaminedPlace
    ensures { result ≡ behind_words address count }
{
    let end = u64::from(address) + 2 * u64::from(count);
    if end > 0o777_777 {
        return ExaminedPlace::Nowhere;
    }
    ExaminedPlace::Word {
        address: end as u32,
    }
}

/// What it shows after a line of the language.
pub(crate) fn behind_line<A: Allocator>(place: ExaminedPlace, line: &Line<A>) -> ExaminedPlace
    ensures { result ≡ place_behind place (Some line.now) }
{
    match line {
        Line::Examine { address, count } => behind_words(*address, *count),
        _ => place,
    }
}

/// What it shows after a text, which may be a line of the language.
#[tactic(auto, using(crate::proofs::Unread::no_place))]
pub(crate) fn behind_text<A: Allocator>(
    alloc: A,
    place: ExaminedPlace,
    text: &[u8],
) -> ExaminedPlace
    ensures { result ≡ place_behind place (line_from {A = A} text.now) }
{
    match parse_line(alloc, text) {
        Ok(line) => behind_line(place, &line),
        Err(_) => place,
    }
}
