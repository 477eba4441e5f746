// Slices of a run as the machine makes them.
ghost use Rattle.std.specs.Prelude.{◌≡◌};
ghost use Rattle.p11_panel.specs.Commands.{CommandStep};
ghost use Rattle.p11_panel.specs.Calls.Runs.{run_command};
ghost use Rattle.p11_dialogue.specs.Runs.{slice_turns};

use p11_dialogue::{RunProgress, slice_turns};
use p11_lines::Answer;
use p11_panel::{Command, Panel};
use std::alloc::Allocator;

/// The command of a run.
pub(crate) fn run_command<A: Allocator>(until_idle: bool, turns: u32) -> Command<A>
    ensures { result ≡ run_command until_idle turns }
{
    if until_idle {
        Command::Continue { turns }
    } else {
        Command::Step { turns }
    }
}

/// Makes a slice of at most so many turns.
pub(crate) fn slice<A: Allocator + Copy>(
    alloc: A,
    panel: &mut Panel<A>,
    run: RunProgress,
    has_keys: bool,
    turns: u32,
) -> Answer<A>
    ensures { CommandStep panel.old (run_command run.until_idle (slice_turns run has_keys turns)) result panel.new }
{
    let turns = slice_turns(run, has_keys, turns);
    panel.act(alloc, &run_command(run.until_idle, turns))
}
