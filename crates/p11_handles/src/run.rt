// A run as C sees it.
ghost use Rattle.std.specs.Prelude.{◌≡◌, [], MatchOption};
ghost use Rattle.p11_lines.specs.AnswerText.{text_of};
ghost use Rattle.p11_panel.specs.Refusals.{IsRefused};
ghost use Rattle.p11_panel.specs.Runs.{step_fault};
ghost use Rattle.p11_handles.specs.HeldRuns.{number_of_reason, told_run, KeepsText, AnswersStop};

use crate::status::Status;
use p11_lines::put_answer;
use p11_panel::{Answer, Command, Panel, StdWriter, StopReason};
use std::alloc::Global;

/// What a run came to.
#[repr(C)]
#[derive(Clone, Copy, PartialEq, Eq)]
pub struct Run {
    /// The turns that were made.
    pub turns: u32,
    /// Why no more were made: 0 if the machine has halted, 1 if they are all made, 2 if it idles, 3 if there was no
    /// memory for what the next one does.
    pub reason: u16,
    /// The program counter.
    pub pc: u16,
}

/// The number by which C knows why a run stopped.
#[tactic(auto, unfolding(crate::specs::HeldRuns::number_of_reason))]
fn number_of_reason(reason: StopReason) -> u16
    ensures { result ≡ number_of_reason reason }
{
    match reason {
        StopReason::Halt => 0,
        StopReason::Turns => 1,
        StopReason::Idle => 2,
        StopReason::Memory => 3,
    }
}

/// The numbers of a run.
#[tactic(auto, unfolding(crate::specs::HeldRuns::told_run))]
pub(crate) fn tell_run(turns: u32, reason: StopReason, pc: u16) -> Run
    ensures { result ≡ told_run turns reason pc }
{
    Run {
        turns,
        reason: number_of_reason(reason),
        pc,
    }
}

/// Makes a run of so many turns.
pub(crate) fn make_run(alloc: Global, panel: &mut Panel, turns: u32, until_idle: bool) -> Answer
    ensures { MatchOption (step_fault turns panel.old) (AnswersStop until_idle turns panel.old result panel.new)
        (λ fault. IsRefused fault panel.old result panel.new) }
{
    if until_idle {
        panel.act(alloc, &Command::Continue { turns })
    } else {
        panel.act(alloc, &Command::Step { turns })
    }
}

/// The text of an answer, or as much of it as there was memory for.
pub(crate) fn answer_text(alloc: Global, answer: &Answer) -> (Status, Vec<u8>)
    ensures { KeepsText result.0 (text_of answer.now) result.1.items }
{
    let mut writer = StdWriter {
        inner: Vec::new(alloc),
    };
    match put_answer(&mut writer, answer) {
        Ok(()) => (Status::Done, writer.inner),
        Err(_) => (Status::NoMemory, writer.inner),
    }
}
