// The texts of answers, written in pieces from fixed tables.
ghost use Rattle.std.specs.Prelude.{◌≡◌, ◌+◌, ◌++◌, ◌≤◌, [], OnOk, OnErr, codes, decimal};
ghost use Rattle.std.specs.List.{flat_map};
ghost use Rattle.p11_lines.specs.AnswerText.{text_of, six_octals, exam_text, exam_texts};
ghost use Rattle.p11_lines.specs.AnswerText.{mark_text, spaced_text, general_text, pointers_text, turn_text};
ghost use Rattle.p11_lines.specs.AnswerText.{registers_text, fault_text};
ghost use Rattle.p11_lines.specs.Calls.Writing.{Puts};
ghost use Rattle.p11_lines.specs.Written.{AppendsFront};
ghost use Rattle.p11_lines.specs.Writers.{Writes};

use crate::answer::{Answer, Mark, Registers};
use crate::devices::put_devices;
use crate::escape::digit;
use crate::fault::Fault;
use crate::packs::put_sectors;
use crate::run::put_run;
use crate::sink::Sink;
use crate::tapes::put_tape;
use arrayvec::ArrayVec;
use itoa::Buffer;
use std::alloc::Allocator;
use thiserror::Error;

/// A writer failed, or took nothing.
#[derive(Clone, Copy, Debug, PartialEq, Eq, Error)]
#[error("the writer failed")]
pub struct Broken;

/// What is kept of a text until it is written.
pub(crate) type Table = ArrayVec<u8, 4096>;

/// Writes a piece.
fn write_out<W: Sink>(writer: &mut W, piece: &[u8]) -> Result<(), Broken>
    ensures ok { OnOk result (Writes (W.state writer.old) (W.state writer.new) piece.now []) }
    ensures err { OnErr result (AppendsFront (W.state writer.old) (W.state writer.new) piece.now) }
{
    let mut rest = piece;
    while !rest.is_empty() {
        match writer.write(rest) {
            Ok(0) => return Err(Broken),
            Ok(count) => rest = &rest[count..],
            Err(_) => return Err(Broken),
        }
    }
    Ok(())
}

/// Writes what is kept.
fn empty<W: Sink>(writer: &mut W, table: &mut Table) -> Result<(), Broken>
    ensures ok { OnOk result (Writes (W.state writer.old) (W.state writer.new) table.old.items []) }
    ensures none { OnOk result (table.new.items ≡ []) }
    ensures err { OnErr result (AppendsFront (W.state writer.old) (W.state writer.new) table.old.items) }
{
    write_out(writer, table.as_slice())?;
    table.clear();
    Ok(())
}

/// Keeps a piece, and writes what was kept where there is no room for it.
pub(crate) fn put<W: Sink>(writer: &mut W, table: &mut Table, piece: &[u8]) -> Result<(), Broken>
    ensures { Puts (W.state writer.old) table.old.items piece.now
        (W.state writer.new) table.new.items result }
{
    if table.try_extend_from_slice(piece).is_ok() {
        return Ok(());
    }
    empty(writer, table)?;
    if table.try_extend_from_slice(piece).is_ok() {
        return Ok(());
    }
    write_out(writer, piece)
}

/// Puts pieces, one after the other.
pub(crate) fn put_all<W: Sink>(
    writer: &mut W,
    table: &mut Table,
    pieces: &[&[u8]],
) -> Result<(), Broken>
    ensures { Puts (W.state writer.old) table.old.items (flat_map (λ piece. piece.now) pieces.now)
        (W.state writer.new) table.new.items result }
{
    for piece in pieces {
        put(writer, table, piece)?;
    }
    Ok(())
}

/// The low 18 bits as six octal digits.
#[tactic(auto, unfolding(crate::specs::AnswerText::six_octals))]
pub(crate) fn octal(number: u32) -> [u8; 6]
    ensures { result ≡ six_octals number }
{
    [
        digit(number / 0o100_000 % 8),
        digit(number / 0o10_000 % 8),
        digit(number / 0o1_000 % 8),
        digit(number / 0o100 % 8),
        digit(number / 0o10 % 8),
        digit(number % 8),
    ]
}

/// Puts the line of one word.
fn put_word<W: Sink>(
    writer: &mut W,
    table: &mut Table,
    address: u32,
    word: u16,
) -> Result<(), Broken>
    ensures { Puts (W.state writer.old) table.old.items (exam_text address word)
        (W.state writer.new) table.new.items result }
{
    put_all(
        writer,
        table,
        &[
            b"EXAM ",
            &octal(address),
            b" ",
            &octal(u32::from(word)),
            b"\n",
        ],
    )
}

/// Puts a line for each word.
fn put_words<W: Sink>(
    writer: &mut W,
    table: &mut Table,
    address: u32,
    words: &[u16],
) -> Result<(), Broken>
    ensures { Puts (W.state writer.old) table.old.items (exam_texts address words.now)
        (W.state writer.new) table.new.items result }
{
    let mut at = address;
    for word in words {
        put_word(writer, table, at, *word)?;
        at = at.wrapping_add(2);
    }
    Ok(())
}

/// The word for what the processor does.
fn mark_name(mark: Mark) -> &'static str
    ensures { result.now ≡ mark_text mark }
{
    match mark {
        Mark::Ready => "ready",
        Mark::Waiting => "waiting",
        Mark::Halted => "halted",
    }
}

/// Puts a space and six octal digits.
fn put_octal<W: Sink>(writer: &mut W, table: &mut Table, word: u16) -> Result<(), Broken>
    ensures { Puts (W.state writer.old) table.old.items (codes " " ++ six_octals word)
        (W.state writer.new) table.new.items result }
{
    put_all(writer, table, &[b" ", &octal(u32::from(word))])
}

/// Puts a space and six octal digits for each word.
pub(crate) fn put_spaced<W: Sink>(
    writer: &mut W,
    table: &mut Table,
    words: &[u16],
) -> Result<(), Broken>
    ensures { Puts (W.state writer.old) table.old.items (spaced_text words.now)
        (W.state writer.new) table.new.items result }
{
    for word in words {
        put_octal(writer, table, *word)?;
    }
    Ok(())
}

fn put_general<W: Sink>(
    writer: &mut W,
    table: &mut Table,
    registers: &Registers,
) -> Result<(), Broken>
    ensures { Puts (W.state writer.old) table.old.items (general_text registers.now)
        (W.state writer.new) table.new.items result }
{
    put(writer, table, b"REGS")?;
    put_spaced(writer, table, &registers.general)?;
    put(writer, table, b"\n")
}

fn put_pointers<W: Sink>(
    writer: &mut W,
    table: &mut Table,
    registers: &Registers,
) -> Result<(), Broken>
    ensures { Puts (W.state writer.old) table.old.items (pointers_text registers.now)
        (W.state writer.new) table.new.items result }
{
    let kernel = octal(u32::from(registers.kernel_sp));
    let user = octal(u32::from(registers.user_sp));
    let pc = octal(u32::from(registers.pc));
    let status = octal(u32::from(registers.status));
    put_all(
        writer,
        table,
        &[
            b"SP ", &kernel, b" ", &user, b" PC ", &pc, b" PS ", &status, b"\n",
        ],
    )
}

fn put_turns<W: Sink>(
    writer: &mut W,
    table: &mut Table,
    registers: &Registers,
) -> Result<(), Broken>
    ensures { Puts (W.state writer.old) table.old.items (turn_text registers.now)
        (W.state writer.new) table.new.items result }
{
    let mut buffer = Buffer::new();
    let turns = buffer.format(registers.turns).as_bytes();
    put_all(
        writer,
        table,
        &[
            b"TURN ",
            turns,
            b" ",
            mark_name(registers.mark).as_bytes(),
            b"\n",
        ],
    )
}

fn put_registers<W: Sink>(
    writer: &mut W,
    table: &mut Table,
    registers: &Registers,
) -> Result<(), Broken>
    ensures { Puts (W.state writer.old) table.old.items (registers_text registers.now)
        (W.state writer.new) table.new.items result }
{
    put_general(writer, table, registers)?;
    put_pointers(writer, table, registers)?;
    put_turns(writer, table, registers)
}

fn put_fault<W: Sink>(writer: &mut W, table: &mut Table, fault: Fault) -> Result<(), Broken>
    ensures { Puts (W.state writer.old) table.old.items (fault_text fault)
        (W.state writer.new) table.new.items result }
{
    let mut buffer = Buffer::new();
    let number = buffer.format(fault.number()).as_bytes();
    put_all(
        writer,
        table,
        &[b"? ", number, b" ", fault.name().as_bytes(), b"\n"],
    )
}

/// Puts the text of an answer.
#[tactic(auto, unfolding(crate::specs::AnswerText::text_of))]
fn put_text<W: Sink, A: Allocator>(
    writer: &mut W,
    table: &mut Table,
    answer: &Answer<A>,
) -> Result<(), Broken>
    ensures { Puts (W.state writer.old) table.old.items (text_of answer.now)
        (W.state writer.new) table.new.items result }
{
    match answer {
        Answer::Done | Answer::Image(_) => put(writer, table, b"OK\n"),
        Answer::Word { address, word } => put_word(writer, table, *address, *word),
        Answer::Words { address, words } => put_words(writer, table, *address, words.as_slice()),
        Answer::Stop {
            typed,
            reason,
            turns,
            pc,
        } => put_run(writer, table, typed.as_slice(), *reason, *turns, *pc),
        Answer::Registers(registers) => put_registers(writer, table, registers),
        Answer::Devices(devices) => put_devices(writer, table, devices),
        Answer::Sectors(sectors) => put_sectors(writer, table, sectors.as_slice()),
        Answer::Tape { bytes, start } => put_tape(writer, table, *bytes, *start),
        Answer::Refused(fault) => put_fault(writer, table, *fault),
    }
}

/// Writes the text of an answer (chapter 22 of the book), with no growth. A text of at most 4,096 bytes is one write, if the writer takes it
/// whole.
///
/// Where the bytes of the writer are known, they gain exactly the text, and after `Broken` a front
/// of it that isn't all of it. Done, each write took some; after `Broken` each but the last, which failed or took
/// nothing.
pub fn put_answer<W: Sink, A: Allocator>(writer: &mut W, answer: &Answer<A>) -> Result<(), Broken>
    ensures ok { OnOk result (Writes (W.state writer.old) (W.state writer.new) (text_of answer.now) []) }
    ensures err { OnErr result (AppendsFront (W.state writer.old) (W.state writer.new) (text_of answer.now)) }
{
    let mut table = Table::new();
    put_text(writer, &mut table, answer)?;
    empty(writer, &mut table)
}
