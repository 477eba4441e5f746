//! How a program of one's own runs the machine: by a list of commands, and by a script. It prints what R0 holds when
//! two words were added, and what a session of three lines answers.
#![tactic(auto)]

ghost use Rattle.std.specs.Prelude.{◌≡◌, ◌<◌};

use p11_panel::{
    Answer, Command, Config, MemoryStore, NoMemory, Panel, StdReader, StdWriter, Store, Words,
    play, session,
};
use std::alloc::{AllocError, Global};
use std::io;
use std::marker::Brand;
use std::process::ExitCode;
use std::sync::ledger::{Blank, Ledger};

fn main(rt: HostRuntime) -> ExitCode {
    match show(&rt) {
        Ok(()) => ExitCode::SUCCESS,
        Err(_) => ExitCode::FAILURE,
    }
}

/// Prints what both examples give.
fn show(rt: &HostRuntime) -> io::Result<()> {
    if let Ok(Some(sum)) = sum(rt.alloc(), 5, 7) {
        println!(rt; "5 and 7 are {sum}")?;
    }
    let pack: (&[u8], &[u8]) = (b"pack", &[0o240, 0]);
    let script = b"mount 0 pack ro\nmount 0 pack ro\nexamine 1000\n";
    if let Ok(written) = answers(rt.alloc(), pack, script) {
        if let Ok(text) = str::from_utf8(written.as_slice()) {
            rt.print(text)?;
        }
    }
    Ok(())
}

/// The commands that add two words on a machine: MOV #left,R0; ADD #right,R0; HALT, from address 1000 on.
fn adding(alloc: Global, left: u16, right: u16) -> Result<Vec<Command>, AllocError> {
    let mut words = Vec::new(alloc);
    words.extend_from_slice(&[0o12700, left, 0o62700, right, 0])?;
    let mut commands = Vec::new(alloc);
    commands.push(Command::Deposit {
        address: 0o1000,
        words: Words::from_vec(words),
    })?;
    commands.push(Command::Start { address: 0o1000 })?;
    commands.push(Command::Step { turns: 9 })?;
    commands.push(Command::Regs)?;
    Ok(commands)
}

/// What R0 holds when a new machine has added two words, if the machine showed its registers.
fn sum(alloc: Global, left: u16, right: u16) -> Result<Option<u16>, NoMemory> {
    let Ok(config) = Config::new(28, 1024) else {
        return Ok(None);
    };
    let commands = adding(alloc, left, right)?;
    let (_, answers) = play(alloc, config, commands.as_slice())?;
    match answers.last() {
        Some(Answer::Registers(registers)) => Ok(Some(registers.general[0])),
        _ => Ok(None),
    }
}

/// All that the session over a script writes, on a new machine, with one file in its store. Nothing is written where
/// the store didn't take the file.
fn answers(alloc: Global, file: (&[u8], &[u8]), script: &[u8]) -> Result<Vec<u8>, NoMemory> {
    answers_counted::<Brand>(alloc, Blank::new(1), file, script)
}

/// Runs a session as `answers` does, with a store whose refusals are counted from a blank on.
fn answers_counted<L: Ledger>(
    alloc: Global,
    blank: Blank,
    file: (&[u8], &[u8]),
    script: &[u8],
) -> Result<Vec<u8>, NoMemory>
    requires name { blank.name ≡ L.name }
    requires parts { blank.parts ≡ L.parts }
    requires some { 0 < blank.parts }
{
    let mut written = Vec::new(alloc);
    let Ok(config) = Config::new(28, 1024) else {
        return Ok(written);
    };
    let mut panel = Panel::new(alloc, config)?;
    let mut store = MemoryStore::<L>::new(alloc, blank);
    if store.put(file.0, file.1).is_err() {
        return Ok(written);
    }
    let mut reader = StdReader { inner: script };
    let mut writer = StdWriter {
        inner: &mut written,
    };
    match session(alloc, &mut panel, &mut store, &mut reader, &mut writer) {
        Ok(_) => Ok(written),
        Err(_) => Err(NoMemory),
    }
}
