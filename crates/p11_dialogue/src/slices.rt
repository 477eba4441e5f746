// Slices of a run, and what comes behind them.
ghost use Rattle.std.specs.Prelude.{◌≡◌, ◌++◌, IfOk, OnOk, OnErr};
ghost use Rattle.p11_dialogue.specs.Behind.{activity_stopped, activity_behind};
ghost use Rattle.p11_dialogue.specs.Runs.{slice_turns, at_slice, is_fresh_behind, is_idling, next_run, goes_on, typed_in};

use crate::activity::Activity;
use crate::buffer::Buffer;
use crate::note::Note;
use crate::record::record_run;
use crate::run::RunProgress;
use crate::stop::{StopCause, stop_of};
use p11_lines::{Answer, MOST_TURNS, NoMemory, StopReason};
use std::alloc::Allocator;

/// Turns of a slice at most where keys wait: the 64 that the machine holds take 64 turns each.
const KEY_TURNS: u32 = 4096;

/// The turns of the next slice, of so many at most.
#[tactic(auto, unfolding(crate::specs::Runs::slice_turns))]
pub fn slice_turns(run: RunProgress, has_keys: bool, turns: u32) -> u32
    ensures { result ≡ slice_turns run has_keys turns }
{
    let most = if run.is_talk && has_keys {
        turns.min(KEY_TURNS)
    } else {
        turns
    };
    most.min(run.left.min(MOST_TURNS.saturating_sub(run.made)))
        .max(1)
}

/// The run at a slice.
#[tactic(auto, unfolding(crate::specs::Runs::at_slice))]
pub fn at_slice(has_keys: bool, run: RunProgress) -> RunProgress
    ensures { result ≡ at_slice has_keys run }
{
    let stuck = if has_keys {
        run.stuck.saturating_add(1).min(200)
    } else {
        0
    };
    RunProgress { stuck, ..run }
}

/// Whether the last byte ends a line.
#[tactic(auto, unfolding(crate::specs::Runs::is_fresh_behind))]
fn is_fresh_behind(is_fresh: bool, typed: &[u8]) -> bool
    ensures { result ≡ is_fresh_behind is_fresh typed.now }
{
    let len = typed.len();
    if len == 0 {
        return is_fresh;
    }
    typed[len - 1] == b'\n'
}

/// The run behind a slice.
#[tactic(auto, unfolding(crate::specs::Runs::next_run))]
fn next_run(run: RunProgress, typed: &[u8], reason: StopReason, turns: u32) -> RunProgress
    ensures { result ≡ next_run run typed.now reason turns }
{
    let left = if run.is_talk {
        run.left
    } else {
        run.left.saturating_sub(turns)
    };
    RunProgress {
        left,
        made: run.made.saturating_add(turns),
        total: run.total.saturating_add(u64::from(turns)),
        is_idle: is_idling(reason),
        is_fresh: is_fresh_behind(run.is_fresh, typed),
        is_quiet: is_idling(reason) || typed.is_empty(),
        ..run
    }
}

fn is_idling(reason: StopReason) -> bool
    ensures { result ≡ is_idling reason }
{
    match reason {
        StopReason::Idle => true,
        _ => false,
    }
}

/// Whether a run goes on behind a slice.
#[tactic(auto, unfolding(crate::specs::Runs::goes_on))]
fn goes_on(run: RunProgress, reason: StopReason, turns: u32) -> bool
    ensures { result ≡ goes_on run reason turns }
{
    match reason {
        StopReason::Turns => run.is_talk || turns < run.left,
        StopReason::Idle => run.is_talk,
        _ => false,
    }
}

/// What comes behind a slice that stopped.
#[tactic(auto, unfolding(crate::specs::Behind::activity_stopped))]
fn activity_stopped<A: Allocator>(
    alloc: A,
    is_going: bool,
    run: RunProgress,
    reason: StopReason,
    pc: u16,
) -> Result<Activity<A>, NoMemory>
    ensures { IfOk result (λ activity. activity ≡ activity_stopped is_going run reason pc) }
{
    if is_going {
        return Ok(Activity::Running(run));
    }
    let text = record_run(alloc, run.made)?;
    Ok(Activity::Stopped {
        stop: stop_of(run, StopCause::Reason(reason), pc),
        text,
    })
}

/// What comes behind a slice.
#[tactic(auto, unfolding(crate::specs::Behind::activity_behind))]
fn activity_behind<A: Allocator>(
    alloc: A,
    run: RunProgress,
    answer: &Answer<A>,
) -> Result<Activity<A>, NoMemory>
    ensures { IfOk result (λ activity. activity ≡ activity_behind run answer.now) }
{
    match answer {
        Answer::Stop {
            typed,
            reason,
            turns,
            pc,
        } => {
            let is_going = goes_on(run, *reason, *turns);
            let next = next_run(run, typed.as_slice(), *reason, *turns);
            activity_stopped(alloc, is_going, next, *reason, *pc)
        }
        Answer::Refused(fault) => {
            let text = record_run(alloc, run.made)?;
            Ok(Activity::Telling {
                answer: Answer::Refused(*fault),
                text,
                note: Note::none(),
            })
        }
        _ => Ok(Activity::Free),
    }
}

/// The bytes that a slice typed.
#[tactic(auto, unfolding(crate::specs::Runs::typed_in))]
fn typed_in<A: Allocator>(answer: &Answer<A>) -> &[u8]
    ensures { result.now ≡ typed_in answer.entry.now }
{
    match answer {
        Answer::Stop { typed, .. } => typed.as_slice(),
        _ => &[],
    }
}

/// Shows what a slice typed: what comes behind it. For want of memory nothing is done.
pub fn show_slice<A: Allocator>(
    alloc: A,
    screen: &mut Buffer<A>,
    run: RunProgress,
    answer: &Answer<A>,
) -> Result<Activity<A>, NoMemory>
    ensures activity { IfOk result (λ activity. activity ≡ activity_behind run answer.now) }
    ensures shown { OnOk result (screen.new ≡ screen.old ++ typed_in answer.now) }
    ensures same { OnErr result (screen.new ≡ screen.old) }
{
    let activity = activity_behind(alloc, run, answer)?;
    screen.push_all(typed_in(answer))?;
    Ok(activity)
}
