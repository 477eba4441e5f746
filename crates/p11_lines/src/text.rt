// From a line to its text.
ghost use Rattle.std.specs.Prelude.{◌≡◌, ◌++◌, ◌∷◌, map, IfOk, OnOk, string_bytes, codes};
ghost use Rattle.std.specs.List.{flat_map};
ghost use Rattle.p11_lines.specs.Escapes.{escaped, escaped_byte};
ghost use Rattle.p11_lines.specs.Grammar.{access_text};
ghost use Rattle.p11_lines.specs.Calls.LineText.{line_text, octal, with_spaces, ReadsBack};

use crate::escape::{escape, is_plain};
use crate::fault::NoMemory;
use crate::line::Line;
use crate::tapes::load_text;
use std::alloc::{AllocError, Allocator};

/// Adds a space and an octal number for each word.
#[tactic(auto, using(std::proofs::lemmas::List::flat_map_more))]
fn push_words<A: Allocator>(text: &mut String<A>, words: &[u16]) -> Result<(), AllocError>
    ensures { OnOk result (string_bytes text.new
        ≡ string_bytes text.old ++ flat_map (λ word. 32 ∷ octal word) words.now) }
{
    for word in words {
        write!(text, " {word:o}")?;
    }
    Ok(())
}

/// Adds what shows a byte.
#[tactic(auto, unfolding(crate::specs::Escapes::escaped_byte))]
fn push_byte<A: Allocator>(text: &mut Vec<u8, A>, byte: u8) -> Result<(), AllocError>
    ensures { OnOk result (text.new.items ≡ text.old.items ++ escaped_byte byte) }
{
    if is_plain(byte) {
        text.push(byte)?;
        return Ok(());
    }
    text.extend_from_slice(&escape(byte))
}

/// Adds what shows bytes.
#[tactic(auto, using(std::proofs::lemmas::List::flat_map_more))]
fn push_escaped<A: Allocator>(text: &mut Vec<u8, A>, bytes: &[u8]) -> Result<(), AllocError>
    ensures { OnOk result (text.new.items ≡ text.old.items ++ escaped bytes.now) }
{
    for byte in bytes {
        push_byte(text, *byte)?;
    }
    Ok(())
}

fn key_text<A: Allocator>(alloc: A, keys: &[u8]) -> Result<Vec<u8, A>, NoMemory>
    ensures { IfOk result (λ text. text.items ≡ codes "key " ++ escaped keys.now) }
{
    let mut text = format!(in alloc; "key ")?.into_bytes();
    push_escaped(&mut text, keys)?;
    Ok(text)
}

/// How a pack is mounted.
pub(crate) fn access_name(protect: bool) -> &'static str
    ensures { result.now ≡ access_text protect }
{
    if protect { "ro" } else { "rw" }
}

fn mount_text<A: Allocator>(
    alloc: A,
    drive: u32,
    name: &[u8],
    protect: bool,
) -> Result<Vec<u8, A>, NoMemory>
    ensures { IfOk result (λ text. text.items
        ≡ codes "mount " ++ octal drive ++ 32 ∷ (name.now ++ 32 ∷ access_text protect)) }
{
    let mut text = format!(in alloc; "mount {drive:o} ")?.into_bytes();
    text.extend_from_slice(name)?;
    text.push(b' ')?;
    text.extend_from_slice(access_name(protect).as_bytes())?;
    Ok(text)
}

fn save_text<A: Allocator>(alloc: A, drive: u32, name: &[u8]) -> Result<Vec<u8, A>, NoMemory>
    ensures { IfOk result (λ text. text.items ≡ codes "save " ++ octal drive ++ 32 ∷ name.now) }
{
    let mut text = format!(in alloc; "save {drive:o} ")?.into_bytes();
    text.extend_from_slice(name)?;
    Ok(text)
}

#[tactic(auto, using(crate::proofs::Lists::with_spaces_octals))]
fn deposit_text<A: Allocator>(alloc: A, address: u32, words: &[u16]) -> Result<Vec<u8, A>, NoMemory>
    ensures { IfOk result (λ text. text.items
        ≡ with_spaces (codes "deposit" ∷ octal address ∷ map octal words.now)) }
{
    let mut text = format!(in alloc; "deposit {address:o}")?;
    push_words(&mut text, words)?;
    Ok(text.into_bytes())
}

/// The text of a line, without an end of line: one space between words, addresses and words of the machine in octal,
/// counts and turns in decimal, no zeros at the front of a number (chapter 21 of the book). The only error is want of
/// memory.
#[tactic(auto, unfolding(crate::specs::Calls::LineText::line_text))]
pub fn line_of<A: Allocator>(alloc: A, line: &Line<A>) -> Result<Vec<u8, A>, NoMemory>
    ensures { IfOk result (λ text. text.items ≡ line_text line.now) }
{
    let text = match line {
        Line::Mount {
            drive,
            name,
            protect,
        } => return mount_text(alloc, *drive, name.as_slice(), *protect),
        Line::Unmount { drive } => format!(in alloc; "unmount {drive:o}")?,
        Line::Save { drive, name } => return save_text(alloc, *drive, name.as_slice()),
        Line::Changed { drive } => format!(in alloc; "changed {drive:o}")?,
        Line::Load { name } => return load_text(alloc, name.as_slice()),
        Line::Key { text } => return key_text(alloc, text.as_slice()),
        Line::Examine { address, count } => format!(in alloc; "examine {address:o} {count}")?,
        Line::Deposit { address, words } => {
            return deposit_text(alloc, *address, words.as_slice());
        }
        Line::Start { address } => format!(in alloc; "start {address:o}")?,
        Line::Set { register, value } => format!(in alloc; "set {register:o} {value:o}")?,
        Line::Tick => format!(in alloc; "tick")?,
        Line::Clock { period } => format!(in alloc; "clock {period}")?,
        Line::Switches { word } => format!(in alloc; "switches {word:o}")?,
        Line::Step { turns } => format!(in alloc; "step {turns}")?,
        Line::Continue { turns } => format!(in alloc; "continue {turns}")?,
        Line::Regs => format!(in alloc; "regs")?,
        Line::Device => format!(in alloc; "device")?,
        Line::Flush => format!(in alloc; "flush")?,
    };
    Ok(text.into_bytes())
}

/// The text of a line reads as the line.
///
/// This is a law of the definitions: a line whose numbers the grammar can show, and whose text has
/// at most 4,096 bytes, is what `parse_line` finds in that text.
pub fn text_reads_back<A: Allocator>(line: &Line<A>)
    ensures { ReadsBack line.now }
{}
