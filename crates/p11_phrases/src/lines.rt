// Lines of the language that stand for what was typed.
ghost use Rattle.std.specs.Prelude.{◌≡◌, ◌≤◌, ◌+◌, ◌∷◌, ◌++◌, [], length, replicate, codes, Some, IfOk, OnOk};
ghost use Rattle.p11_lines.specs.Calls.LineText.{line_text};
ghost use Rattle.p11_lines.specs.declared.line.Line.TheVariants as line;
ghost use Rattle.p11_phrases.specs.Phrases.{script, set_text, sets};
ghost use Rattle.p11_phrases.specs.Calls.{GivesWords};
ghost use Rattle.p11_phrases.specs.Words.{words_in, words_of_text};

use crate::refusal::Refusal;
use p11_lines::{Fault, Line, NoMemory, Words, line_of, parse_line};
use std::alloc::{AllocError, Allocator};

/// The text of a line, with its end.
fn one_line<A: Allocator>(alloc: A, line: &Line<A>) -> Result<Vec<u8, A>, NoMemory>
    ensures { IfOk result (λ text. text.items ≡ line_text line.now ++ 10 ∷ []) }
{
    let mut text = line_of(alloc, line)?;
    text.push(b'\n')?;
    Ok(text)
}

/// The line that shows the registers.
#[tactic(auto, using(crate::proofs::Scripts::regs_alone))]
pub(crate) fn regs_line<A: Allocator>(alloc: A) -> Result<Vec<u8, A>, NoMemory>
    ensures { IfOk result (λ text. text.items ≡ script (line.Regs ∷ [])) }
{
    one_line(alloc, &Line::Regs)
}

/// The line that shows so many words.
#[tactic(auto, using(crate::proofs::Scripts::examine_alone))]
pub(crate) fn examine_line<A: Allocator>(
    alloc: A,
    address: u32,
    count: u32,
) -> Result<Vec<u8, A>, NoMemory>
    ensures { IfOk result (λ text. text.items ≡ script (line.Examine address count ∷ [])) }
{
    one_line(alloc, &Line::Examine { address, count })
}

/// The line that deposits words.
#[tactic(auto, using(crate::proofs::Scripts::deposit_alone))]
pub(crate) fn fill_line<A: Allocator>(
    alloc: A,
    address: u32,
    words: Vec<u16, A>,
) -> Result<Vec<u8, A>, NoMemory>
    ensures { IfOk result (λ text. text.items ≡ script (line.Deposit address words.items ∷ [])) }
{
    let line = Line::Deposit {
        address,
        words: Words::from_vec(words),
    };
    one_line(alloc, &line)
}

/// Puts the line that sets a register behind others.
#[tactic(auto, using(crate::proofs::Scripts::same_set))]
fn push_set<A: Allocator>(
    alloc: A,
    text: &mut Vec<u8, A>,
    register: u16,
    value: u16,
) -> Result<(), NoMemory>
    ensures { OnOk result (text.new.items ≡ text.old.items ++ set_text register value) }
{
    let line = one_line(alloc, &Line::Set { register, value })?;
    text.extend_from_slice(line.as_slice())?;
    Ok(())
}

/// The lines that set registers from one on to these words.
#[tactic(auto, using(crate::proofs::Scripts::set_more, crate::proofs::Scripts::set_all))]
pub(crate) fn set_lines<A: Allocator + Copy>(
    alloc: A,
    first: u16,
    words: &[u16],
) -> Result<Vec<u8, A>, NoMemory>
    requires { first + length words.now ≤ 65536 }
    ensures { IfOk result (λ text. text.items ≡ script (sets first words.now)) }
{
    let mut text = Vec::new(alloc);
    let mut register = u32::from(first);
    for word in words {
        push_set(alloc, &mut text, register as u16, *word)?;
        register += 1;
    }
    Ok(text)
}

/// So many copies of a word.
pub(crate) fn copies<A: Allocator>(
    alloc: A,
    word: u16,
    count: usize,
) -> Result<Vec<u16, A>, AllocError>
    ensures { IfOk result (λ words. words.items ≡ replicate count word) }
{
    vec![in alloc; word; count]
}

/// The words of a line that deposits some, and else none.
fn words_in<A: Allocator>(line: Line<A>) -> Result<Vec<u16, A>, Refusal>
    ensures { GivesWords result (words_in (Some line)) }
{
    match line {
        Line::Deposit { address: _, words } => Ok(words.into_vec()),
        _ => Err(Refusal::NotWord),
    }
}

/// The words of the machine that a text has.
#[tactic(auto, unfolding(crate::specs::Words::words_of_text))]
pub(crate) fn words_of_text<A: Allocator + Copy>(
    alloc: A,
    text: &[u8],
) -> Result<Vec<u16, A>, Refusal>
    ensures { GivesWords result (words_of_text A text.now) }
{
    let line = deposit_line(alloc, text)?;
    match parse_line(alloc, line.as_slice()) {
        Ok(line) => words_in(line),
        Err(Fault::BadLine) => Err(Refusal::NotWord),
        Err(_) => Err(Refusal::NoMemory),
    }
}

/// The line that deposits what a text has.
fn deposit_line<A: Allocator>(alloc: A, text: &[u8]) -> Result<Vec<u8, A>, AllocError>
    ensures { IfOk result (λ line. line.items ≡ codes "deposit 0 " ++ text.now) }
{
    let mut line = Vec::new(alloc);
    line.extend_from_slice(b"deposit 0 ")?;
    line.extend_from_slice(text)?;
    Ok(line)
}

/// A word and what stands behind it.
pub(crate) fn spelled_line<A: Allocator>(
    alloc: A,
    word: &[u8],
    rest: &[u8],
) -> Result<Vec<u8, A>, AllocError>
    ensures { IfOk result (λ line. line.items ≡ word.now ++ rest.now) }
{
    let mut line = Vec::new(alloc);
    line.extend_from_slice(word)?;
    line.extend_from_slice(rest)?;
    Ok(line)
}

/// A line with its end.
pub(crate) fn ended<A: Allocator>(line: Vec<u8, A>) -> Result<Vec<u8, A>, NoMemory>
    ensures { IfOk result (λ text. text.items ≡ line.items ++ 10 ∷ []) }
{
    let mut text = line;
    text.push(b'\n')?;
    Ok(text)
}
