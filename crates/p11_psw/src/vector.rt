//! The vectors of traps and interrupts.
ghost use Rattle.std.specs.Prelude.{◌≡◌, ◌<◌};
ghost use Rattle.p11_psw.specs.Vectors.{vector_address};
ghost use Rattle.p11_psw.specs.Calls.Levels.{vector_level};

use crate::priority::Priority;

/// A vector: what a trap or an interrupt is for, and where its service's PC and status stand.
#[derive(Clone, Copy)]
pub enum Vector {
    /// Odd address, time-out on the bus, stack limit, and the illegal JMP and JSR to a register.
    BusError,
    /// A reserved instruction word, and HALT outside kernel mode.
    ReservedInstruction,
    /// BPT and the trace trap.
    Breakpoint,
    /// IOT.
    InputOutputTrap,
    /// EMT.
    EmulatorTrap,
    /// TRAP.
    Trap,
    /// An abort of the memory management unit.
    MemoryManagement,
    /// The console line's receiver.
    Receiver,
    /// The console line's transmitter.
    Transmitter,
    /// The line clock.
    Clock,
    /// The disk controller.
    Disk,
}

impl Vector {
    /// The address in kernel space of the vector's first word, the new PC. The new status word is in the next word. All
    /// vectors lie below the stack limit, 400 (octal).
    #[inline(always)]
    pub fn address(self) -> u16
        ensures value { result ≡ vector_address self }
        ensures bound { result < 0o400 }
    {
        match self {
            Vector::BusError => 0o4,
            Vector::ReservedInstruction => 0o10,
            Vector::Breakpoint => 0o14,
            Vector::InputOutputTrap => 0o20,
            Vector::EmulatorTrap => 0o30,
            Vector::Trap => 0o34,
            Vector::Receiver => 0o60,
            Vector::Transmitter => 0o64,
            Vector::Clock => 0o100,
            Vector::Disk => 0o220,
            Vector::MemoryManagement => 0o250,
        }
    }

    /// The level at which a device interrupts through this vector, and none for a trap.
    pub fn level(self) -> Option<Priority>
        ensures { result ≡ vector_level self }
    {
        match self {
            Vector::Clock => Some(Priority::Level6),
            Vector::Disk => Some(Priority::Level5),
            Vector::Receiver | Vector::Transmitter => Some(Priority::Level4),
            Vector::BusError
            | Vector::ReservedInstruction
            | Vector::Breakpoint
            | Vector::InputOutputTrap
            | Vector::EmulatorTrap
            | Vector::Trap
            | Vector::MemoryManagement => None,
        }
    }
}
