//! A session: a script read byte by byte, its lines done, and the texts of their answers written.
ghost use Rattle.std.specs.Prelude.{◌≡◌, ◌≤◌, ◌<◌, ◌+◌, ◌++◌, ◌∷◌, [], ◌⊎◌, ℕ, List, Option, Some, length};
ghost use Rattle.std.specs.Prelude.{IfOk, OnErr, IsErrOf};
ghost use Rattle.std.specs.Io.KnownBytes.{IsAtEnd};
ghost use Rattle.p11_lines.specs.Writers.{WriterState};
ghost use Rattle.p11_panel.specs.Kept.Buffer.{kept};
ghost use Rattle.p11_lines.specs.LineEnd.{without_cr};
ghost use Rattle.p11_panel.specs.Script.{ended_lines, script_lines};
ghost use Rattle.p11_panel.specs.Readers.{Reads, ended, failed};
ghost use Rattle.p11_panel.specs.Session.{SessionState, with_store, LineDoes, ScriptDone, ScriptCut};
ghost use Rattle.p11_panel.specs.Kept.Standing.{Stands};

use crate::answering::do_line;
use crate::line_buffer::LineBuffer;
use crate::panel::Panel;
use crate::source::Source;
use p11_lines::{Answer, Broken, Fault, Sink, put_answer, without_return};
use p11_store::Store;
use std::alloc::Allocator;
use thiserror::Error;

/// Why a session ended before its script did.
#[derive(Clone, Copy, Debug, PartialEq, Eq, Error)]
pub enum SessionFault {
    #[error("read fault")]
    Reading,
    #[error("write fault")]
    Writing,
    #[error("script too long")]
    TooLong,
}

impl From<Broken> for SessionFault {
    ghost use Rattle.p11_panel.specs.declared.script.SessionFault.TheVariants.{Writing};

    ghost from_gives = { λ _ e. e ≡ Writing };

    fn from(_: Broken) -> Self {
        SessionFault::Writing
    }
}

const MOST_READS: u32 = 1_000_000;

/// Does the line that LF has ended.
fn end_line<A: Allocator + Copy, S: Store>(
    alloc: A,
    panel: &mut Panel<A>,
    store: &mut S,
    buffer: &LineBuffer,
) -> Option<Answer<A>>
    ensures { (piece : List ℕ) → buffer.now ≡ kept piece → LineDoes (without_cr piece)
        (with_store panel.old (S.state store.old)) result (with_store panel.new (S.state store.new)) }
{
    match buffer.get() {
        None => Some(Answer::Refused(Fault::BadLine)),
        Some(piece) => do_line(alloc, panel, store, without_return(piece)),
    }
}

/// Does the last line, which no LF ends.
fn last_line<A: Allocator + Copy, S: Store>(
    alloc: A,
    panel: &mut Panel<A>,
    store: &mut S,
    buffer: &LineBuffer,
) -> Option<Answer<A>>
    ensures { (piece : List ℕ) → buffer.now ≡ kept piece → LineDoes piece
        (with_store panel.old (S.state store.old)) result (with_store panel.new (S.state store.new)) }
{
    match buffer.get() {
        None => Some(Answer::Refused(Fault::BadLine)),
        Some(piece) => do_line(alloc, panel, store, piece),
    }
}

/// Takes the next byte of the script: how many lines were answered.
fn feed_byte<A: Allocator + Copy, S: Store, W: Sink>(
    alloc: A,
    panel: &mut Panel<A>,
    store: &mut S,
    writer: &mut W,
    buffer: &mut LineBuffer,
    byte: u8,
) -> Result<u32, Broken>
    ensures ok { IfOk result (λ n. (read : List ℕ) (s : SessionState) (start : WriterState) (count : ℕ)
        → Stands (LineDoes {A = A}) read s start (with_store panel.old (S.state store.old))
        (W.state writer.old) count buffer.old
        → Stands (LineDoes {A = A}) (read ++ byte ∷ []) s start
        (with_store panel.new (S.state store.new)) (W.state writer.new) (count + n) buffer.new) }
    ensures err { OnErr result ((read : List ℕ) (s : SessionState) (start : WriterState) (count : ℕ)
        → Stands (LineDoes {A = A}) read s start (with_store panel.old (S.state store.old))
        (W.state writer.old) count buffer.old
        → ScriptCut (LineDoes {A = A}) (ended_lines (read ++ byte ∷ [])) s start (with_store panel.new (S.state store.new))
        (W.state writer.new)) }
    ensures one { IfOk result (λ n. n ≤ 1) }
{
    if byte != b'\n' {
        buffer.push(byte);
        return Ok(0);
    }
    let answer = end_line(alloc, panel, store, buffer);
    buffer.clear();
    let Some(answer) = answer else {
        return Ok(0);
    };
    put_answer(writer, &answer)?;
    Ok(1)
}

/// Takes the next bytes of the script: how many lines were answered.
fn feed<A: Allocator + Copy, S: Store, W: Sink>(
    alloc: A,
    panel: &mut Panel<A>,
    store: &mut S,
    writer: &mut W,
    buffer: &mut LineBuffer,
    bytes: &[u8],
) -> Result<u32, Broken>
    requires { length bytes.now ≤ 4096 }
    ensures ok { IfOk result (λ n. (read : List ℕ) (s : SessionState) (start : WriterState) (count : ℕ)
        → Stands (LineDoes {A = A}) read s start (with_store panel.old (S.state store.old))
        (W.state writer.old) count buffer.old
        → Stands (LineDoes {A = A}) (read ++ bytes.now) s start
        (with_store panel.new (S.state store.new)) (W.state writer.new) (count + n) buffer.new) }
    ensures err { OnErr result ((read : List ℕ) (s : SessionState) (start : WriterState) (count : ℕ)
        → Stands (LineDoes {A = A}) read s start (with_store panel.old (S.state store.old))
        (W.state writer.old) count buffer.old
        → ScriptCut (LineDoes {A = A}) (ended_lines (read ++ bytes.now)) s start (with_store panel.new (S.state store.new))
        (W.state writer.new)) }
    ensures few { IfOk result (λ n. n ≤ length bytes.now) }
{
    let mut answered = 0;
    for byte in bytes {
        answered += feed_byte(alloc, panel, store, writer, buffer, *byte)?;
    }
    Ok(answered)
}

/// Does the last line of the script: how many lines were answered.
fn finish<A: Allocator + Copy, S: Store, W: Sink>(
    alloc: A,
    panel: &mut Panel<A>,
    store: &mut S,
    writer: &mut W,
    buffer: &LineBuffer,
) -> Result<u32, Broken>
    ensures ok { IfOk result (λ n. (read : List ℕ) (s : SessionState) (start : WriterState) (count : ℕ)
        → Stands (LineDoes {A = A}) read s start (with_store panel.old (S.state store.old))
        (W.state writer.old) count buffer.now
        → ScriptDone (LineDoes {A = A}) (script_lines read) s start (with_store panel.new (S.state store.new))
        (W.state writer.new) (count + n)) }
    ensures err { OnErr result ((read : List ℕ) (s : SessionState) (start : WriterState) (count : ℕ)
        → Stands (LineDoes {A = A}) read s start (with_store panel.old (S.state store.old))
        (W.state writer.old) count buffer.now
        → ScriptCut (LineDoes {A = A}) (script_lines read) s start (with_store panel.new (S.state store.new))
        (W.state writer.new)) }
    ensures one { IfOk result (λ n. n ≤ 1) }
{
    let Some(answer) = last_line(alloc, panel, store, buffer) else {
        return Ok(0);
    };
    put_answer(writer, &answer)?;
    Ok(1)
}

/// Does the lines of a script, one after another, and writes the text of each answer as soon as its command is done
/// (chapters 21 to 23 of the book). It answers how many lines were answered.
///
/// LF ends a line, and a CR just before it is dropped; the last line may have no LF. A blank line and a line whose
/// first byte past spaces and tabs is `#` have no answer. A refused line is answered, and the session goes on. A line
/// may have 4,096 bytes, and a longer one is `BadLine`. Buffers are fixed tables: what takes memory are the commands.
///
/// # Errors
///
/// `Reading` where a read failed, and `TooLong` where 999,999 reads of at most 4,096 bytes gave some, and one gave more: the
/// lines that LF ended in what was read are done, and all their text is written. `Writing` where a write failed or took
/// nothing: just the lines up to one are done, itself included. All earlier texts are whole, and of its own text a front
/// is written, but not all. LF has ended that line, or it is the last of a script that was read to its end. A call that
/// failed is the last one of its kind: it is never tried again.
pub fn session<A: Allocator + Copy, S: Store, R: Source, W: Sink>(
    alloc: A,
    panel: &mut Panel<A>,
    store: &mut S,
    reader: &mut R,
    writer: &mut W,
) -> Result<u32, SessionFault>
    // The script was read to its end, all its lines are done, and their text is written: nothing failed.
    ensures ok { IfOk result (λ m. (read : List ℕ) × (n : ℕ)
        × Reads (R.state reader.old) (R.state reader.new) read n (ended ∷ []) × (n ≤ 999999)
        × IsAtEnd (R.state reader.new).left
        × ScriptDone (LineDoes {A = A}) (script_lines read)
        (with_store panel.old (S.state store.old)) (W.state writer.old) (with_store panel.new (S.state store.new))
        (W.state writer.new) m) }
    // The last read failed, and no other. The lines that LF ended in what was read are done, and their text is written.
    ensures reading { IsErrOf result SessionFault.Reading → (read : List ℕ) × (m : ℕ) × (n : ℕ)
        × Reads (R.state reader.old) (R.state reader.new) read n (failed ∷ []) × (n ≤ 999999)
        × ScriptDone (LineDoes {A = A}) (ended_lines read)
        (with_store panel.old (S.state store.old)) (W.state writer.old) (with_store panel.new (S.state store.new))
        (W.state writer.new) m }
    // Just 1,000,000 reads gave bytes. The lines that LF ended in what was read are done, and their text is written.
    ensures long { IsErrOf result SessionFault.TooLong → (read : List ℕ) × (m : ℕ) × (n : ℕ)
        × Reads (R.state reader.old) (R.state reader.new) read n [] × (n ≡ 1000000)
        × ScriptDone (LineDoes {A = A}) (ended_lines read)
        (with_store panel.old (S.state store.old)) (W.state writer.old) (with_store panel.new (S.state store.new))
        (W.state writer.new) m }
    // No read failed. Just the lines up to one are done, which LF ended, or which is the last of a script that was read
    // to its end.
    ensures broke { IsErrOf result SessionFault.Writing → (read : List ℕ) × (n : ℕ)
        × ((Reads (R.state reader.old) (R.state reader.new) read n [] × (n ≤ 1000000)
        × ScriptCut (LineDoes {A = A}) (ended_lines read)
        (with_store panel.old (S.state store.old)) (W.state writer.old) (with_store panel.new (S.state store.new))
        (W.state writer.new))
        ⊎ (Reads (R.state reader.old) (R.state reader.new) read n (ended ∷ []) × (n ≤ 999999)
        × IsAtEnd (R.state reader.new).left
        × ScriptCut (LineDoes {A = A}) (script_lines read)
        (with_store panel.old (S.state store.old)) (W.state writer.old) (with_store panel.new (S.state store.new))
        (W.state writer.new))) }
{
    let mut buffer = LineBuffer::new();
    let mut chunk = [0; 4096];
    let mut answered = 0u32;
    for _turn in 0..MOST_READS {
        let Ok(len) = reader.read(&mut chunk) else {
            return Err(SessionFault::Reading);
        };
        if len == 0 {
            answered += finish(alloc, panel, store, writer, &buffer)?;
            return Ok(answered);
        }
        answered += feed(alloc, panel, store, writer, &mut buffer, &chunk[..len])?;
    }
    Err(SessionFault::TooLong)
}
