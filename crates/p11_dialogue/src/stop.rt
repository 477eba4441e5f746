// How a run ended, and how that is told.
ghost use Rattle.std.specs.Prelude.{◌≡◌, ◌++◌, ◌+◌, ◌%◌, ◌/◌, ◌∷◌, [], IfOk, OnOk, OnErr};
ghost use Rattle.p11_lines.specs.AnswerText.{six_octals, reason_text};
ghost use Rattle.p11_dialogue.specs.Stops.{stop_text, cause_text};

use crate::buffer::Buffer;
use crate::run::RunProgress;
use itoa::Buffer as Digits;
use p11_lines::{NoMemory, StopReason};
use std::alloc::Allocator;

/// Why a run ended.
#[derive(Clone, Copy, PartialEq, Eq)]
pub enum StopCause {
    /// The machine stopped.
    Reason(StopReason),
    /// Ctrl-E.
    Key,
    /// The end of the keyboard.
    End,
}

/// How a run ended: why, after how many turns, with which program counter, and whether the last line that was typed is ended.
#[derive(Clone, Copy)]
pub struct Stop {
    pub cause: StopCause,
    pub total: u64,
    pub pc: u16,
    pub is_fresh: bool,
}

/// The end of a run.
pub fn stop_of(run: RunProgress, cause: StopCause, pc: u16) -> Stop
    ensures { result ≡ record { cause = cause; total = run.total; pc = pc; is_fresh = run.is_fresh } }
{
    Stop {
        cause,
        total: run.total,
        pc,
        is_fresh: run.is_fresh,
    }
}

fn octal_digit(number: u16) -> u8
    ensures { result ≡ 48 + number % 8 }
{
    48 + (number % 8) as u8
}

/// Six octal digits.
#[tactic(auto, unfolding(p11_lines::specs::AnswerText::six_octals))]
fn six_octals(number: u16) -> [u8; 6]
    ensures { result ≡ six_octals number }
{
    [
        octal_digit(number / 32768),
        octal_digit(number / 4096),
        octal_digit(number / 512),
        octal_digit(number / 64),
        octal_digit(number / 8),
        octal_digit(number),
    ]
}

fn cause_text(cause: StopCause) -> &'static [u8]
    ensures { result.now ≡ cause_text cause }
{
    match cause {
        StopCause::Reason(reason) => reason_text(reason),
        StopCause::Key => b"key",
        StopCause::End => b"end",
    }
}

fn reason_text(reason: StopReason) -> &'static [u8]
    ensures { result.now ≡ reason_text reason }
{
    match reason {
        StopReason::Halt => b"halt",
        StopReason::Turns => b"turns",
        StopReason::Idle => b"idle",
        StopReason::Memory => b"memory",
    }
}

/// The line that tells how a run ended.
#[tactic(auto, unfolding(crate::specs::Stops::stop_text))]
fn stop_line<A: Allocator>(alloc: A, stop: Stop) -> Result<Vec<u8, A>, NoMemory>
    ensures { IfOk result (λ line. line.items ≡ stop_text stop) }
{
    let mut line = Vec::new(alloc);
    let mut digits = Digits::new();
    line.extend_from_slice(b"STOP ")?;
    line.extend_from_slice(cause_text(stop.cause))?;
    line.extend_from_slice(b" ")?;
    line.extend_from_slice(digits.format(stop.total).as_bytes())?;
    line.extend_from_slice(b" ")?;
    line.extend_from_slice(&six_octals(stop.pc))?;
    line.extend_from_slice(b"\n")?;
    Ok(line)
}

/// Tells how a run ended; or nothing where there is no memory.
pub fn put_stop<A: Allocator>(alloc: A, screen: &mut Buffer<A>, stop: Stop) -> Result<(), NoMemory>
    ensures ok { OnOk result (screen.new ≡ screen.old ++ stop_text stop) }
    ensures err { OnErr result (screen.new ≡ screen.old) }
{
    let line = stop_line(alloc, stop)?;
    screen.push_all(line.as_slice())
}
