// What a line of a script asks for.
use crate::bytes::Bytes;
use crate::words::Words;
use std::alloc::{Allocator, Global};

/// The most turns of a run (decimal).
pub const MOST_TURNS: u32 = 100_000_000;

/// A line of a script. Addresses, words and numbers of drives are octal in the text, counts and turns decimal.
#[derive(Drop)]
#[derive_where(PartialEq, Eq)]
pub enum Line<A: Allocator = Global> {
    /// Mount the pack whose image has a name in a drive, protected from writes or not.
    Mount {
        drive: u32,
        name: Bytes<A>,
        protect: bool,
    },
    /// Take the pack out of a drive.
    Unmount {
        drive: u32,
    },
    /// Keep what the pack in a drive holds under a name.
    Save {
        drive: u32,
        name: Bytes<A>,
    },
    /// Show which sectors of the pack in a drive were written.
    Changed {
        drive: u32,
    },
    /// Read the tape that has a name in to memory.
    Load {
        name: Bytes<A>,
    },
    /// Show so many words from a bus address of 18 bits on.
    Examine {
        address: u32,
        count: u32,
    },
    /// Store the words from a bus address of 18 bits on.
    Deposit {
        address: u32,
        words: Words<A>,
    },
    /// Reset the bus and let the processor begin at an address of 16 bits.
    Start {
        address: u16,
    },
    /// Press the keys of the console's keyboard that give these bytes.
    Key {
        text: Bytes<A>,
    },
    /// Let the line clock tick.
    Tick,
    /// Let the line clock tick by itself each time that so many turns are done, or with 0 no more.
    Clock {
        period: u32,
    },
    /// Set the switch register.
    Switches {
        word: u16,
    },
    /// Set the register of a number to a word.
    Set {
        register: u16,
        value: u16,
    },
    /// Run so many turns.
    Step {
        turns: u32,
    },
    /// Run so many turns, or fewer where the machine idles.
    Continue {
        turns: u32,
    },
    /// Show the registers.
    Regs,
    /// Show the devices.
    Device,
    /// Drop the translations and the decoded words that are kept to make the machine fast. No answer shows it.
    Flush,
}
