//! The program `terminal`: a PDP-11/40 for a person, who sits at its console and at its terminal.
//!
//! `terminal [OPTION ..] [SCRIPT]` does the lines of the script, and then those that come on standard input; with `--batch`
//! those of the script alone. What is done can be recorded as a script for `p11`. The console is `p11_console`'s; here
//! stand what it is given and what becomes of what it gives.
#![tactic(auto)]

ghost use Rattle.std.specs.Prelude.{◌≡◌, ◌<◌};

mod ending;
mod files;
mod folder;
mod host;
mod journal;
mod notice;
mod past;
mod remark;
mod rescue;
mod settings;
mod timing;
mod window;

use crate::ending::{Cause, ending};
use crate::files::Files;
use crate::host::Host;
use crate::journal::Journal;
use crate::notice::say;
use crate::past::open_past;
use crate::rescue::Rescues;
use crate::settings::{Launch, settings};
use crate::timing::Timing;
use p11_console::{Console, Manner, Settings};
use p11_files::FileStore;
use p11_panel::Panel;
use p11_shown::Outlet;
use std::io::IsTerminal;
use std::marker::Brand;
use std::os::unix::process::parent_id;
use std::process::ExitCode;
use std::sync::ledger::{Blank, Ledger};
use std::time::Duration;
use std::{env, io};

fn main(rt: HostRuntime) -> ExitCode {
    let cause = match run(&rt) {
        Ok(cause) => cause,
        Err(cause) => cause,
    };
    let (status, text) = ending(&cause);
    let is_said = match &cause {
        Cause::Help(_) => say(rt.alloc(), rt.stdout(), text).is_ok(),
        _ => say(rt.alloc(), rt.stderr(), text).is_ok() || status > 0,
    };
    ExitCode::from(if is_said { status } else { 1 })
}

/// Reads the command line, and holds the dialogue.
fn run(rt: &HostRuntime) -> Result<Cause, Cause> {
    let words = words(rt)?;
    let launch = settings(rt.alloc(), words.as_slice())?;
    hold::<Brand>(rt, &launch, Blank::new(1))
}

/// The words of the command line, the program's name first.
fn words(rt: &HostRuntime) -> Result<Vec<String>, Cause> {
    let mut words = Vec::new(rt.alloc());
    match env::args(rt) {
        Ok(arguments) => {
            for argument in arguments {
                if words.push(argument).is_err() {
                    return Err(Cause::NoMemory);
                }
            }
            Ok(words)
        }
        Err(error) => Err(match error.kind() {
            io::ErrorKind::OutOfMemory => Cause::NoMemory,
            _ => Cause::NotUtf8,
        }),
    }
}

/// Holds the dialogue, with the files of the system, whose refusals are counted from a blank on; how it ended.
fn hold<L: Ledger>(rt: &HostRuntime, launch: &Launch<'_>, blank: Blank) -> Result<Cause, Cause>
    requires name { blank.name ≡ L.name }
    requires parts { blank.parts ≡ L.parts }
    requires some { 0 < blank.parts }
{
    let mut store = FileStore::<L>::new(rt, blank);
    if let Some(folder) = launch.files {
        if store.confine(folder).is_err() {
            return Err(Cause::NoFolder);
        }
    }
    let input = rt.stdin();
    let manner = manner(launch.is_batch, input.is_terminal());
    let mut console = console(rt, launch, manner)?;
    let past = match launch.history {
        Some(path) => Some(open_past(rt, path, &mut console)?),
        None => None,
    };
    let mut host = Host {
        rt,
        console,
        slice: launch.slice,
        input,
        is_typed: manner == Manner::Typed,
        has_read_fault: false,
        has_write_fault: false,
        screen: Outlet::new(rt.stdout(), launch.is_raw),
        errors: Outlet::new(rt.stderr(), launch.is_raw),
        bits: launch.bits,
        is_machines: false,
        has_run: false,
        is_running: false,
        timing: Timing::new(launch),
        files: Files::new(rt, store, launch.script),
        journal: Journal::open(rt, launch)?,
        top: launch.files,
        past,
        told: env::var(rt, "P11_SIZE").ok(),
        asks: env::var(rt, "P11_ASKS").ok(),
        parent: parent_id(rt.process()),
        returns: 0,
        looked: Duration::ZERO,
        rescues: Rescues::new(rt, launch.files),
        keeps: !launch.is_saveless,
        autosave: Duration::from_mins(u64::from(launch.autosave)),
        kept: Duration::ZERO,
        last_steps: None,
    };
    host.hold()
}

/// Where lines come from.
fn manner(is_batch: bool, is_terminal: bool) -> Manner {
    if is_batch {
        Manner::Batch
    } else if is_terminal {
        Manner::Typed
    } else {
        Manner::Given
    }
}

/// A console over a new machine, which begins with the script.
fn console(rt: &HostRuntime, launch: &Launch<'_>, manner: Manner) -> Result<Console, Cause> {
    let Ok(panel) = Panel::new(rt.alloc(), launch.config) else {
        return Err(Cause::NoMemory);
    };
    let settings = Settings {
        manner,
        is_strict: launch.is_strict,
        is_saveless: launch.is_saveless,
        is_talk: launch.is_talk,
    };
    let mut console = Console::new(rt.alloc(), panel, settings);
    if let Some(name) = launch.script {
        console.open(rt.alloc(), name.as_bytes())?;
    }
    Ok(console)
}
