//! The headline's call: a list of commands on a new machine.
ghost use Rattle.std.specs.Prelude.{◌≡◌, IfOk};
ghost use Rattle.p11_cpu.specs.Operator.{new_machine};
ghost use Rattle.p11_panel.specs.Confinement.{CommandsConfined};
ghost use Rattle.p11_panel.specs.Play.{CommandsRun};

use crate::command::Command;
use crate::config::Config;
use crate::panel::Panel;
use p11_lines::{Answer, NoMemory};
use std::alloc::Allocator;

/// Does a list of commands, one after another, on a new machine of these sizes (chapter 20 of the book): the panel after
/// the last of them, and the list of their answers, one for each. Each run in the list leaves what `Panel::act` says that
/// it leaves.
///
/// The only error is want of memory, for the machine or for the list of answers; nothing is handed out then.
pub fn play<A: Allocator + Copy>(
    alloc: A,
    config: Config,
    commands: &[Command<A>],
) -> Result<(Panel<A>, Vec<Answer<A>, A>), NoMemory>
    ensures plays { IfOk result (λ r. CommandsRun (new_machine config.kwords) commands.now r.1.items r.0) }
    ensures confined { IfOk result (λ r. CommandsConfined (new_machine config.kwords) commands.now r.1.items r.0) }
{
    let mut panel = Panel::new(alloc, config)?;
    let mut answers = Vec::new(alloc);
    for command in commands {
        let answer = panel.act(alloc, command);
        answers.push(answer)?;
    }
    Ok((panel, answers))
}
