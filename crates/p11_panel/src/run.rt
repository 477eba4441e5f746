//! STEP and CONTINUE: turns up to a number, a halt, want of memory, or idling.
ghost use Rattle.std.specs.Prelude.{◌≡◌, ◌≤◌, ◌+◌, ◌^◌};
ghost use Rattle.p11_panel.specs.Calls.Runs.{IsRun, stops_idling};

use p11_cpu::Machine;
use p11_lines::StopReason;
use std::alloc::Allocator;

/// Whether a run stops for idling.
fn idles<A: Allocator>(machine: &Machine<A>, asked: bool) -> bool
    ensures { result ≡ stops_idling asked machine.now.visible }
{
    if !asked {
        return false;
    }
    machine.idle()
}

/// Makes turns, up to so many, to the first that halts, to one that wants memory that was refused, or, where that is
/// asked, until the machine idles: how many were made, and why no more.
pub(crate) fn run<A: Allocator>(
    machine: &mut Machine<A>,
    turns: u32,
    until_idle: bool,
) -> (u32, StopReason)
    requires { machine.old.visible.turns + turns ≤ 2 ^ 62 }
    ensures { IsRun (stops_idling until_idle) turns machine.old.visible result.0 result.1 machine.new.visible }
{
    let mut made = 0;
    while made < turns {
        let quiet = machine.quiet_turns(turns - made);
        if quiet > 0 {
            made += quiet;
            if machine.is_halted() {
                return (made, StopReason::Halt);
            }
            continue;
        }
        if idles(machine, until_idle) {
            return (made, StopReason::Idle);
        }
        let waited = machine.waiting_turns(turns - made);
        if waited > 0 {
            made += waited;
            continue;
        }
        match machine.try_turns(turns - made) {
            Ok(more) => {
                made += more;
                if machine.is_halted() {
                    return (made, StopReason::Halt);
                }
            }
            Err(_) => return (made, StopReason::Memory),
        }
    }
    (turns, StopReason::Turns)
}
