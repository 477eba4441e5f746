// What a command answers.
use crate::bytes::Bytes;
use crate::fault::Fault;
use crate::words::Words;
use p11_unibus::BusDevices;
use std::alloc::{Allocator, Global};

/// Why a run stopped.
#[derive(Clone, Copy, PartialEq, Eq)]
pub enum StopReason {
    /// The machine has halted: by HALT in kernel mode, or since a fatal service met a trap.
    Halt,
    /// All the turns that were asked for are made.
    Turns,
    /// The processor waits, no device is due at a later turn, and no request stands above the processor's priority.
    Idle,
    /// A growth that the next turn needs was refused.
    Memory,
}

/// What the processor does between turns.
#[derive(Clone, Copy, PartialEq, Eq)]
pub enum Mark {
    /// The next turn runs an instruction.
    Ready,
    /// A WAIT was run, and no service has ended it.
    Waiting,
    /// The last turn has halted the machine.
    Halted,
}

/// The processor's registers, status word and turn count.
#[derive(Clone, Copy, PartialEq, Eq)]
pub struct Registers {
    /// R0 to R5, each a word of 16 bits.
    pub general: [u16; 6],
    /// The stack pointer of kernel mode.
    pub kernel_sp: u16,
    /// The stack pointer of user mode.
    pub user_sp: u16,
    /// R7, the program counter.
    pub pc: u16,
    /// The processor status word.
    pub status: u16,
    /// The turns since the machine was made.
    pub turns: u64,
    /// What the processor does between turns.
    pub mark: Mark,
}

/// The status registers of memory management.
#[derive(Clone, Copy, PartialEq, Eq)]
pub struct ManagementRegisters {
    /// SR0: whether addresses are mapped, and what an abort kept of itself.
    pub status_0: u16,
    /// SR2: the address of the instruction.
    pub status_2: u16,
}

/// What shows of the devices, without side effect.
#[derive(Clone, Copy, PartialEq, Eq)]
pub struct Devices {
    /// The devices on the bus.
    pub bus: BusDevices,
    /// Memory management.
    pub management: ManagementRegisters,
}

/// What a command answers.
#[derive(Drop)]
#[derive_where(PartialEq, Eq)]
pub enum Answer<A: Allocator = Global> {
    /// The command is done, and has nothing to show.
    Done,
    /// The word at a bus address of 18 bits.
    Word {
        address: u32,
        word: u16,
    },
    /// The words at an address and at the even addresses after it.
    Words {
        address: u32,
        words: Words<A>,
    },
    /// A run has stopped after so many turns, with the program counter here. These bytes were typed in it.
    Stop {
        typed: Bytes<A>,
        reason: StopReason,
        turns: u32,
        pc: u16,
    },
    /// The processor's registers, as `regs` shows them.
    Registers(Registers),
    /// The devices' registers, as `device` shows them.
    Devices(Devices),
    /// The sectors of a pack that were written, in the order of the first write of each.
    Sectors(Words<A>),
    /// All that a pack holds.
    Image(Bytes<A>),
    /// A tape was read in: how many bytes of data it has, and its start address, if it gives one.
    Tape {
        bytes: u64,
        start: Option<u16>,
    },
    /// The command was refused, and changed nothing.
    Refused(Fault),
}
