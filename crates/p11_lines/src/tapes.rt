// The line that reads a tape in, and its answer.
ghost use Rattle.std.specs.Prelude.{◌≡◌, ◌++◌, IfOk, codes};
ghost use Rattle.p11_lines.specs.AnswerText.{tape_text};
ghost use Rattle.p11_lines.specs.Grammar.{words_of, name_from, one_word};
ghost use Rattle.p11_lines.specs.Calls.Reading.{Reads};
ghost use Rattle.p11_lines.specs.Calls.Writing.{Puts};

use crate::bytes::Bytes;
use crate::disks::is_name;
use crate::fault::{Fault, NoMemory};
use crate::line::Line;
use crate::output::{Broken, Table, octal, put_all};
use crate::parse::next_word;
use crate::sink::Sink;
use itoa::Buffer;
use std::alloc::Allocator;

#[tactic(auto, unfolding(crate::specs::Grammar::word_and, crate::specs::Grammar::no_word, crate::specs::Grammar::name_from))]
pub(crate) fn load<A: Allocator>(alloc: A, args: &[u8]) -> Result<Line<A>, Fault>
    ensures { Reads result (one_word name_from Line.Load (words_of args.now)) }
{
    let Some((name, args)) = next_word(args) else {
        return Err(Fault::BadLine);
    };
    if next_word(args).is_some() {
        return Err(Fault::BadLine);
    }
    if !is_name(name) {
        return Err(Fault::BadLine);
    }
    let name = Bytes::from_vec(Vec::from_slice(alloc, name)?);
    Ok(Line::Load { name })
}

pub(crate) fn load_text<A: Allocator>(alloc: A, name: &[u8]) -> Result<Vec<u8, A>, NoMemory>
    ensures { IfOk result (λ text. text.items ≡ codes "load " ++ name.now) }
{
    let mut text = format!(in alloc; "load ")?.into_bytes();
    text.extend_from_slice(name)?;
    Ok(text)
}

/// Puts the line of a tape that was read in.
#[tactic(auto, unfolding(crate::specs::AnswerText::tape_text))]
pub(crate) fn put_tape<W: Sink>(
    writer: &mut W,
    table: &mut Table,
    bytes: u64,
    start: Option<u16>,
) -> Result<(), Broken>
    ensures { Puts (W.state writer.old) table.old.items (tape_text bytes start)
        (W.state writer.new) table.new.items result }
{
    let mut buffer = Buffer::new();
    let bytes = buffer.format(bytes).as_bytes();
    match start {
        None => put_all(writer, table, &[b"TAPE ", bytes, b" none\n"]),
        Some(start) => {
            let start = octal(u32::from(start));
            put_all(writer, table, &[b"TAPE ", bytes, b" ", &start, b"\n"])
        }
    }
}
