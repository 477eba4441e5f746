// What the operator is shown of the processor and of the devices.
ghost use Rattle.std.specs.Prelude.{◌≡◌};
ghost use Rattle.p11_panel.specs.Shown.{mark_of, registers_of, shown_devices};

use crate::panel::Panel;
use p11_lines::{Devices, ManagementRegisters, Mark, Registers};
use std::alloc::Allocator;

impl<A: Allocator> Panel<A> {
    /// What the line `regs` shows of the processor: its registers, each a word of 16 bits, its status word, the turns since the
    /// machine was made, and what it does between turns.
    #[tactic(auto, unfolding(crate::specs::Shown::registers_of))]
    pub fn registers(&self) -> Registers
        ensures { result ≡ registers_of self.now }
    {
        let registers = self.machine.regs();
        let general = registers.general;
        Registers {
            general,
            kernel_sp: registers.kernel_sp,
            user_sp: registers.user_sp,
            pc: registers.pc,
            status: self.machine.status().word(),
            turns: self.machine.turns(),
            mark: self.mark(),
        }
    }

    /// What the line `device` shows of the devices on the bus and of memory management.
    #[tactic(auto, unfolding(crate::specs::Shown::shown_devices))]
    pub fn devices(&self) -> Devices
        ensures { result ≡ shown_devices self.now }
    {
        Devices {
            bus: self.machine.devices(),
            management: ManagementRegisters {
                status_0: self.machine.status_0(),
                status_2: self.machine.status_2(),
            },
        }
    }

    /// What the processor does between turns.
    fn mark(&self) -> Mark
        ensures { result ≡ mark_of self.now.processor }
    {
        if self.machine.is_halted() {
            Mark::Halted
        } else if self.machine.is_waiting() {
            Mark::Waiting
        } else {
            Mark::Ready
        }
    }
}
