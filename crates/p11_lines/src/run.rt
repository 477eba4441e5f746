// The lines of a run: what was typed, and how it stopped.
ghost use Rattle.std.specs.Prelude.{◌≡◌, ◌++◌, codes, OnOk, OnErr};
ghost use Rattle.p11_lines.specs.AnswerText.{stop_text, reason_text, typed_text};
ghost use Rattle.p11_lines.specs.Escapes.{escaped, escaped_byte};
ghost use Rattle.p11_lines.specs.Calls.Writing.{Puts};

use crate::answer::StopReason;
use crate::escape::{escape, is_plain};
use crate::output::{Broken, Table, octal, put, put_all};
use crate::sink::Sink;
use itoa::Buffer;

/// The word for why a run stopped.
fn reason_name(reason: StopReason) -> &'static str
    ensures { result.now ≡ reason_text reason }
{
    match reason {
        StopReason::Halt => "halt",
        StopReason::Turns => "turns",
        StopReason::Idle => "idle",
        StopReason::Memory => "memory",
    }
}

fn put_stop<W: Sink>(
    writer: &mut W,
    table: &mut Table,
    reason: StopReason,
    turns: u32,
    pc: u16,
) -> Result<(), Broken>
    ensures { Puts (W.state writer.old) table.old.items (stop_text reason turns pc)
        (W.state writer.new) table.new.items result }
{
    let mut buffer = Buffer::new();
    let turns = buffer.format(turns).as_bytes();
    let pc = octal(u32::from(pc));
    put_all(
        writer,
        table,
        &[
            b"STOP ",
            reason_name(reason).as_bytes(),
            b" ",
            turns,
            b" ",
            &pc,
            b"\n",
        ],
    )
}

/// Puts what shows a byte.
#[tactic(auto, unfolding(crate::specs::Escapes::escaped_byte))]
fn put_byte<W: Sink>(writer: &mut W, table: &mut Table, byte: u8) -> Result<(), Broken>
    ensures { Puts (W.state writer.old) table.old.items (escaped_byte byte)
        (W.state writer.new) table.new.items result }
{
    if is_plain(byte) {
        put(writer, table, &[byte])
    } else {
        put(writer, table, &escape(byte))
    }
}

/// Puts what shows bytes.
fn put_escaped<W: Sink>(writer: &mut W, table: &mut Table, bytes: &[u8]) -> Result<(), Broken>
    ensures { Puts (W.state writer.old) table.old.items (escaped bytes.now)
        (W.state writer.new) table.new.items result }
{
    for byte in bytes {
        put_byte(writer, table, *byte)?;
    }
    Ok(())
}

/// Puts what shows bytes, and the end of their line.
fn put_escaped_line<W: Sink>(writer: &mut W, table: &mut Table, bytes: &[u8]) -> Result<(), Broken>
    ensures { Puts (W.state writer.old) table.old.items (escaped bytes.now ++ codes "\n")
        (W.state writer.new) table.new.items result }
{
    put_escaped(writer, table, bytes)?;
    put(writer, table, b"\n")
}

/// Puts the line of the typed bytes, if there are any.
fn put_typed<W: Sink>(writer: &mut W, table: &mut Table, typed: &[u8]) -> Result<(), Broken>
    ensures { Puts (W.state writer.old) table.old.items (typed_text typed.now)
        (W.state writer.new) table.new.items result }
{
    if typed.is_empty() {
        return Ok(());
    }
    put(writer, table, b"TTY ")?;
    put_escaped_line(writer, table, typed)
}

/// Puts the lines of a run.
pub(crate) fn put_run<W: Sink>(
    writer: &mut W,
    table: &mut Table,
    typed: &[u8],
    reason: StopReason,
    turns: u32,
    pc: u16,
) -> Result<(), Broken>
    ensures { Puts (W.state writer.old) table.old.items (typed_text typed.now ++ stop_text reason turns pc)
        (W.state writer.new) table.new.items result }
{
    put_typed(writer, table, typed)?;
    put_stop(writer, table, reason, turns, pc)
}
