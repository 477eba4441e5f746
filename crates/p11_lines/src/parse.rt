// From the bytes of a line to the line.
ghost use Rattle.std.specs.Prelude.{◌≡◌, ◌<◌, ◌≤◌, ◌∷◌, [], drop, length, true, not, is_some, IfSome, MatchOption};
ghost use Rattle.std.specs.List.{position};
ghost use Rattle.std.specs.Str.Parse.{digits_value};
ghost use Rattle.p11_lines.specs.Grammar.{is_blank, words_of, all_digits, number_from, address_from, word_from};
ghost use Rattle.p11_lines.specs.Grammar.{count_from, period_from, all_words_from, no_word, word_and, one_word, two_words};
ghost use Rattle.p11_lines.specs.Grammar.{count_or_none, some_words, commands, line_by, line_from};
ghost use Rattle.p11_lines.specs.Calls.Reading.{Reads, GivesList};

use crate::disks::{drive, mount, save};
use crate::fault::Fault;
use crate::keys::key;
use crate::line::Line;
use crate::tapes::load;
use crate::words::Words;
use std::alloc::Allocator;

/// The most bytes of a line (decimal), without its end.
const MOST_BYTES: usize = 4096;

/// A space or a tab.
fn blank(byte: u8) -> bool
    ensures { result ≡ is_blank byte }
{
    byte == b' ' || byte == b'\t'
}

/// The place of the first byte that isn't a blank.
fn first_graph(text: &[u8]) -> Option<usize>
    ensures { result ≡ position (λ byte. not (is_blank byte)) text.now }
{
    text.iter().position(|byte| !blank(*byte))
}

/// The place of the first blank.
fn first_blank(text: &[u8]) -> Option<usize>
    ensures { result ≡ position is_blank text.now }
{
    text.iter().position(|byte| blank(*byte))
}

/// The first word of a text, and what follows it.
pub(crate) fn next_word(text: &[u8]) -> Option<(&[u8], &[u8])>
    ensures words { MatchOption result (words_of text.now ≡ [])
        (λ found. words_of text.now ≡ found.0.now ∷ words_of found.1.now) }
    ensures shorter { IfSome result (λ found. length found.1.now < length text.now) }
{
    let rest = &text[first_graph(text)?..];
    let Some(end) = first_blank(rest) else {
        return Some((rest, &[]));
    };
    Some(rest.split_at(end))
}

/// Whether each byte is a digit of the base.
fn are_digits(base: u32, digits: &[u8]) -> bool
    requires low { 2 ≤ base }
    requires high { base ≤ 10 }
    ensures { result ≡ all_digits base digits.now }
{
    digits.iter().all(|digit| char::from(*digit).is_digit(base))
}

/// The number that a few digits write.
fn value(base: u32, digits: &[u8]) -> u32
    requires base { base ≤ 10 }
    requires few { length digits.now ≤ 9 }
    requires digits { all_digits base digits.now ≡ true }
    ensures { result ≡ digits_value base digits.now }
{
    let mut value = 0u32;
    for digit in digits {
        value = value * base + u32::from(*digit - b'0');
    }
    value
}

/// The number that one digit up to so many write, where it is not above the greatest.
#[tactic(auto, unfolding(crate::specs::Grammar::number_from))]
pub(crate) fn number(base: u32, places: usize, greatest: u32, digits: &[u8]) -> Option<u32>
    requires low { 2 ≤ base }
    requires high { base ≤ 10 }
    requires places { places ≤ 9 }
    ensures { result ≡ number_from base places greatest digits.now }
{
    if digits.is_empty() {
        return None;
    }
    if digits.len() > places {
        return None;
    }
    if !are_digits(base, digits) {
        return None;
    }
    let value = value(base, digits);
    if value > greatest {
        return None;
    }
    Some(value)
}

/// An address of the bus.
fn address(digits: &[u8]) -> Option<u32>
    ensures { result ≡ address_from digits.now }
{
    number(8, 6, 0o777_777, digits)
}

/// A word of the machine.
#[tactic(auto, unfolding(crate::specs::Grammar::number_from))]
fn word(digits: &[u8]) -> Option<u16>
    ensures { result ≡ word_from digits.now }
{
    let value = number(8, 6, 0o177_777, digits)?;
    u16::try_from(value).ok()
}

/// A period, which may be 0.
fn period(digits: &[u8]) -> Option<u32>
    ensures { result ≡ period_from digits.now }
{
    number(10, 9, 999_999_999, digits)
}

/// A count, which is not 0.
#[tactic(auto, unfolding(crate::specs::Grammar::count_from))]
fn count(digits: &[u8]) -> Option<u32>
    ensures { result ≡ count_from digits.now }
{
    let count = number(10, 9, 999_999_999, digits)?;
    if count == 0 {
        return None;
    }
    Some(count)
}

/// The line, if no word is left.
#[tactic(auto, unfolding(crate::specs::Grammar::no_word))]
fn no_word<A: Allocator>(line: Line<A>, args: &[u8]) -> Option<Line<A>>
    ensures { result ≡ no_word line (words_of args.now) }
{
    if next_word(args).is_some() {
        return None;
    }
    Some(line)
}

#[tactic(auto, unfolding(crate::specs::Grammar::count_or_none, crate::specs::Grammar::word_and))]
fn examine<A: Allocator>(args: &[u8]) -> Option<Line<A>>
    ensures { result ≡ word_and address_from count_or_none Line.Examine (words_of args.now) }
{
    let (first, args) = next_word(args)?;
    let address = address(first)?;
    let Some((second, args)) = next_word(args) else {
        return Some(Line::Examine { address, count: 1 });
    };
    let count = count(second)?;
    no_word(Line::Examine { address, count }, args)
}

#[tactic(auto, unfolding(crate::specs::Grammar::word_and))]
fn unmount<A: Allocator>(args: &[u8]) -> Option<Line<A>>
    ensures { result ≡ one_word word_from Line.Unmount (words_of args.now) }
{
    let (first, args) = next_word(args)?;
    let drive = drive(first)?;
    no_word(Line::Unmount { drive }, args)
}

#[tactic(auto, unfolding(crate::specs::Grammar::word_and))]
fn changed<A: Allocator>(args: &[u8]) -> Option<Line<A>>
    ensures { result ≡ one_word word_from Line.Changed (words_of args.now) }
{
    let (first, args) = next_word(args)?;
    let drive = drive(first)?;
    no_word(Line::Changed { drive }, args)
}

#[tactic(auto, unfolding(crate::specs::Grammar::word_and))]
fn start<A: Allocator>(args: &[u8]) -> Option<Line<A>>
    ensures { result ≡ one_word word_from Line.Start (words_of args.now) }
{
    let (first, args) = next_word(args)?;
    let address = word(first)?;
    no_word(Line::Start { address }, args)
}

#[tactic(auto, unfolding(crate::specs::Grammar::word_and))]
fn clock<A: Allocator>(args: &[u8]) -> Option<Line<A>>
    ensures { result ≡ one_word period_from Line.Clock (words_of args.now) }
{
    let (first, args) = next_word(args)?;
    let period = period(first)?;
    no_word(Line::Clock { period }, args)
}

#[tactic(auto, unfolding(crate::specs::Grammar::word_and))]
fn switches<A: Allocator>(args: &[u8]) -> Option<Line<A>>
    ensures { result ≡ one_word word_from Line.Switches (words_of args.now) }
{
    let (first, args) = next_word(args)?;
    let word = word(first)?;
    no_word(Line::Switches { word }, args)
}

#[tactic(auto, unfolding(crate::specs::Grammar::word_and))]
fn set<A: Allocator>(args: &[u8]) -> Option<Line<A>>
    ensures { result ≡ two_words word_from word_from Line.Set (words_of args.now) }
{
    let (first, args) = next_word(args)?;
    let register = word(first)?;
    let (second, args) = next_word(args)?;
    let value = word(second)?;
    no_word(Line::Set { register, value }, args)
}

#[tactic(auto, unfolding(crate::specs::Grammar::word_and))]
fn step<A: Allocator>(args: &[u8]) -> Option<Line<A>>
    ensures { result ≡ one_word count_from Line.Step (words_of args.now) }
{
    let (first, args) = next_word(args)?;
    let turns = count(first)?;
    no_word(Line::Step { turns }, args)
}

#[tactic(auto, unfolding(crate::specs::Grammar::word_and))]
fn go_on<A: Allocator>(args: &[u8]) -> Option<Line<A>>
    ensures { result ≡ one_word count_from Line.Continue (words_of args.now) }
{
    let (first, args) = next_word(args)?;
    let turns = count(first)?;
    no_word(Line::Continue { turns }, args)
}

/// Whether each word of the line is a word of the machine.
#[tactic(auto, unfolding(crate::specs::Grammar::all_words_from))]
fn are_words(args: &[u8]) -> bool
    ensures { result ≡ is_some (all_words_from (words_of args.now)) }
{
    let mut rest = args;
    while let Some((first, after)) = next_word(rest) {
        if word(first).is_none() {
            return false;
        }
        rest = after;
    }
    true
}

/// The words of the machine that the words of the line are.
#[tactic(auto, using(crate::proofs::Lists::found_before_more, crate::proofs::Lists::found_before_all), unfolding(crate::specs::Grammar::all_words_from))]
fn words<A: Allocator>(alloc: A, args: &[u8]) -> Result<Vec<u16, A>, Fault>
    ensures { GivesList result (all_words_from (words_of args.now)) }
{
    let mut words = Vec::new(alloc);
    let mut rest = args;
    while let Some((first, after)) = next_word(rest) {
        let Some(word) = word(first) else {
            return Err(Fault::BadLine);
        };
        words.push(word)?;
        rest = after;
    }
    Ok(words)
}

#[tactic(auto, unfolding(crate::specs::Grammar::word_and, crate::specs::Grammar::some_words))]
fn deposit<A: Allocator>(alloc: A, args: &[u8]) -> Result<Line<A>, Fault>
    ensures { Reads result (word_and address_from some_words Line.Deposit (words_of args.now)) }
{
    let Some((first, args)) = next_word(args) else {
        return Err(Fault::BadLine);
    };
    if next_word(args).is_none() {
        return Err(Fault::BadLine);
    }
    let Some(address) = address(first) else {
        return Err(Fault::BadLine);
    };
    if !are_words(args) {
        return Err(Fault::BadLine);
    }
    let words = words(alloc, args)?;
    Ok(Line::Deposit {
        address,
        words: Words::from_vec(words),
    })
}

/// The line that a command is which takes no memory, from `tick` on.
#[tactic(auto, unfolding(crate::specs::Grammar::line_by))]
fn fixed_line<A: Allocator>(name: &[u8], args: &[u8]) -> Option<Line<A>>
    ensures { result ≡ line_by (drop 9 commands) name.now (words_of args.now) }
{
    if name == b"tick".as_slice() {
        return no_word(Line::Tick, args);
    }
    if name == b"clock".as_slice() {
        return clock(args);
    }
    if name == b"switches".as_slice() {
        return switches(args);
    }
    if name == b"set".as_slice() {
        return set(args);
    }
    if name == b"step".as_slice() {
        return step(args);
    }
    if name == b"continue".as_slice() {
        return go_on(args);
    }
    if name == b"regs".as_slice() {
        return no_word(Line::Regs, args);
    }
    if name == b"device".as_slice() {
        return no_word(Line::Device, args);
    }
    if name == b"flush".as_slice() {
        return no_word(Line::Flush, args);
    }
    None
}

/// The line that a command is which is about no drive and no tape.
#[tactic(auto, unfolding(crate::specs::Grammar::line_by))]
fn machine_line<A: Allocator>(alloc: A, name: &[u8], args: &[u8]) -> Result<Line<A>, Fault>
    ensures { Reads result (line_by (drop 5 commands) name.now (words_of args.now)) }
{
    if name == b"examine".as_slice() {
        return examine(args).ok_or(Fault::BadLine);
    }
    if name == b"deposit".as_slice() {
        return deposit(alloc, args);
    }
    if name == b"start".as_slice() {
        return start(args).ok_or(Fault::BadLine);
    }
    if name == b"key".as_slice() {
        return key(alloc, args);
    }
    fixed_line(name, args).ok_or(Fault::BadLine)
}

/// Reads a line of at most 4,096 bytes, which has no end of line with it (chapter 21 of the book). Addresses, words and
/// numbers of drives are octal, counts and turns decimal.
///
/// # Errors
///
/// `BadLine` for bytes that are no line; blank lines and remarks are none. `NoMemory` only for a
/// line that holds a list or a name: memory is asked for last, so a line in error is always known as such.
#[tactic(auto, unfolding(crate::specs::Grammar::line_from, crate::specs::Grammar::line_from_words, crate::specs::Grammar::line_by))]
pub fn parse_line<A: Allocator>(alloc: A, line: &[u8]) -> Result<Line<A>, Fault>
    ensures { Reads result (line_from line.now) }
{
    if line.len() > MOST_BYTES {
        return Err(Fault::BadLine);
    }
    let Some((name, args)) = next_word(line) else {
        return Err(Fault::BadLine);
    };
    if name == b"mount".as_slice() {
        return mount(alloc, args);
    }
    if name == b"unmount".as_slice() {
        return unmount(args).ok_or(Fault::BadLine);
    }
    if name == b"save".as_slice() {
        return save(alloc, args);
    }
    if name == b"changed".as_slice() {
        return changed(args).ok_or(Fault::BadLine);
    }
    if name == b"load".as_slice() {
        return load(alloc, args);
    }
    machine_line(alloc, name, args)
}
