//! Laws of the definitions, each a function that does nothing, whose contract is the law.
ghost use Rattle.p11_panel.specs.Laws.Flush.{FlushShowsNothing, LinesShowNothing};
ghost use Rattle.p11_panel.specs.Laws.Outcomes.{RunsHaveOneOutcome, CommandsHaveOneOutcome, ListsHaveOneOutcome};

use std::alloc::Allocator;

/// Two runs of the same number of turns from the same state, neither of which want of memory stopped, make the same
/// number of turns, stop for the same reason, and end in the same state.
pub fn a_run_has_one_outcome()
    ensures { RunsHaveOneOutcome }
{}

/// A command has one answer and one next state, where memory neither refused it nor stopped its run.
pub fn a_command_has_one_outcome<A: Allocator>()
    ensures { CommandsHaveOneOutcome A }
{}

/// A list of commands has one list of answers and one last state, where memory refused and stopped none of them.
pub fn a_list_has_one_outcome<A: Allocator>()
    ensures { ListsHaveOneOutcome A }
{}

/// A flush may be taken out of a list of commands anywhere: no other answer changes and the last state doesn't, where
/// memory refused and stopped none of them.
pub fn flush_shows_nothing<A: Allocator>()
    ensures { FlushShowsNothing A }
{}

/// New machines with as much memory give the same answers and come to the same state, whatever the number of their
/// decoded lines, where memory refused and stopped none of the commands.
pub fn the_number_of_lines_shows_nothing<A: Allocator>()
    ensures { LinesShowNothing A }
{}
