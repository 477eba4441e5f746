//! What an operator can ask of the machine.
use p11_lines::{Bytes, Words};
use std::alloc::{Allocator, Global};

/// A command of the operator's (chapters 16 to 20 of the book). Addresses are of bytes: `Examine` and `Deposit` take bus
/// addresses of 18 bits, `Start` one of 16. Words have 16 bits, and drives are numbered from 0 to 7.
#[derive(Drop)]
pub enum Command<A: Allocator = Global> {
    /// Mount a pack that holds these bytes, and zeros behind them, on a drive, which may be protected from writes.
    Mount {
        drive: u32,
        image: Bytes<A>,
        protect: bool,
    },
    /// Take the pack out of a drive.
    Unmount {
        drive: u32,
    },
    /// Show all that the pack on a drive holds.
    Save {
        drive: u32,
    },
    /// Show which sectors of the pack on a drive were written since it was mounted.
    Changed {
        drive: u32,
    },
    /// Write the bytes of a tape in the absolute binary format to memory.
    Load {
        tape: Bytes<A>,
    },
    /// Show so many words from an even bus address on: 1 to 512.
    Examine {
        address: u32,
        count: u32,
    },
    /// Write words from an even bus address on: 1 to 64, and one alone where the range touches the I/O page.
    Deposit {
        address: u32,
        words: Words<A>,
    },
    /// Reset the bus and set PC to an even address.
    Start {
        address: u16,
    },
    /// Press the keys that give these bytes, all of them or none.
    Key {
        text: Bytes<A>,
    },
    /// Let the line clock tick.
    Tick,
    /// Let the line clock tick by itself each time that so many turns are done, or with 0 no more.
    Clock {
        period: u32,
    },
    /// Set the switch register.
    Switches {
        word: u16,
    },
    /// Set the register of a number (octal): 0 to 5, the kernel's stack pointer 6, PC 7, the user's stack pointer 10,
    /// or the processor status word 11, of which bits 11:8 stay 0.
    Set {
        register: u16,
        value: u16,
    },
    /// Run so many turns: 1 to 100,000,000.
    Step {
        turns: u32,
    },
    /// Run so many turns, 1 to 100,000,000, or fewer where the machine idles.
    Continue {
        turns: u32,
    },
    /// Show the processor's registers.
    Regs,
    /// Drop all that the machine keeps to find answers sooner. Nothing that shows changes.
    Flush,
    /// Show the devices.
    Device,
}
