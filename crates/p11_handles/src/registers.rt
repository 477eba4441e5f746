// The registers as C sees them.
ghost use Rattle.std.specs.Prelude.{◌≡◌};
ghost use Rattle.p11_cpu.specs.OperatorDevices.{machine_devices_of};
ghost use Rattle.p11_handles.specs.Registers.{number_of_mark, told_registers};

use p11_panel::{Mark, Panel};

/// The registers and status words of the processor and of memory management, between turns.
#[repr(C)]
#[derive(Clone, Copy, PartialEq, Eq)]
pub struct Registers {
    /// The turns since the machine was made.
    pub turns: u64,
    /// R0 to R5, each a word of 16 bits.
    pub general: [u16; 6],
    /// The stack pointer of kernel mode.
    pub kernel_sp: u16,
    /// The stack pointer of user mode.
    pub user_sp: u16,
    /// R7, the program counter.
    pub pc: u16,
    /// The processor status word.
    pub status: u16,
    /// SR0 of memory management: whether addresses are mapped, and what an abort kept of itself.
    pub status_0: u16,
    /// SR2 of memory management: the address of the instruction.
    pub status_2: u16,
    /// What the processor does between turns: 0 if it is ready, 1 if it waits, 2 if it has halted.
    pub mark: u16,
}

/// The number by which C knows what the processor does between turns.
#[tactic(auto, unfolding(crate::specs::Registers::number_of_mark))]
fn number_of_mark(mark: Mark) -> u16
    ensures { result ≡ number_of_mark mark }
{
    match mark {
        Mark::Ready => 0,
        Mark::Waiting => 1,
        Mark::Halted => 2,
    }
}

/// The registers of a machine.
#[tactic(auto, unfolding(crate::specs::Registers::told_registers, p11_panel::specs::Shown::shown_devices))]
pub fn tell_registers(panel: &Panel) -> Registers
    ensures { result ≡ told_registers panel.now }
{
    let shown = panel.registers();
    let management = panel.devices().management;
    let general = shown.general;
    Registers {
        turns: shown.turns,
        general,
        kernel_sp: shown.kernel_sp,
        user_sp: shown.user_sp,
        pc: shown.pc,
        status: shown.status,
        status_0: management.status_0,
        status_2: management.status_2,
        mark: number_of_mark(shown.mark),
    }
}

/// How many keys wait for a machine to take them.
#[tactic(auto, unfolding(p11_panel::specs::Shown::shown_devices))]
pub(crate) fn keys_waiting(panel: &Panel) -> u32
    ensures { result ≡ (machine_devices_of panel.now).keys }
{
    panel.devices().bus.keys
}
