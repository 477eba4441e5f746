//! The program `p11`: a PDP-11/40 under an operator's script.
//!
//! `p11 [OPTION ..] SCRIPT` does the lines of the script, over the files that they name, and writes their answers to standard
//! output.
#![tactic(auto)]

ghost use Rattle.std.specs.Prelude.{◌≡◌, ◌<◌};

mod ending;
mod finish;
mod playing;
mod script_reader;
mod settings;
mod told;

use crate::ending::Cause;
use crate::finish::finish;
use crate::playing::play_script;
use crate::script_reader::ScriptReader;
use crate::settings::{Launch, settings};
use crate::told::{ToldReader, ToldWriter};
use p11_files::FileStore;
use p11_panel::Panel;
use std::marker::Brand;
use std::process::ExitCode;
use std::sync::ledger::{Blank, Ledger};
use std::{env, io};

fn main(rt: HostRuntime) -> ExitCode {
    let cause = match run(&rt) {
        Ok(()) => Cause::Done,
        Err(cause) => cause,
    };
    let mut output = ToldWriter::new(io::writer(&rt));
    let mut errors = ToldWriter::new(rt.stderr());
    ExitCode::from(finish(&mut output, &mut errors, &cause))
}

/// Reads the command line, and runs the script that it names.
fn run(rt: &HostRuntime) -> Result<(), Cause> {
    let words = words(rt)?;
    let launch = settings(rt.alloc(), words.as_slice())?;
    run_script(rt, &launch)
}

/// The words of the command line, the program's name first.
fn words(rt: &HostRuntime) -> Result<Vec<String>, Cause> {
    let mut words = Vec::new(rt.alloc());
    match env::args(rt) {
        Ok(arguments) => {
            for argument in arguments {
                words.push(argument)?;
            }
            Ok(words)
        }
        Err(error) => Err(match error.kind() {
            io::ErrorKind::OutOfMemory => Cause::NoMemory,
            _ => Cause::NotUtf8,
        }),
    }
}

/// Makes the machine, opens the script and runs the session.
fn run_script(rt: &HostRuntime, launch: &Launch<'_>) -> Result<(), Cause> {
    run_counted::<Brand>(rt, launch, Blank::new(1))
}

/// Runs a script as `run_script` does, with the files of the system, whose refusals are counted from a blank on.
fn run_counted<L: Ledger>(rt: &HostRuntime, launch: &Launch<'_>, blank: Blank) -> Result<(), Cause>
    requires name { blank.name ≡ L.name }
    requires parts { blank.parts ≡ L.parts }
    requires some { 0 < blank.parts }
{
    let mut panel = Panel::new(rt.alloc(), launch.config)?;
    run_on::<L>(rt, launch, &mut panel, blank)
}

/// Opens the script and runs the session on this machine.
fn run_on<L: Ledger>(
    rt: &HostRuntime,
    launch: &Launch<'_>,
    panel: &mut Panel,
    blank: Blank,
) -> Result<(), Cause>
    requires name { blank.name ≡ L.name }
    requires parts { blank.parts ≡ L.parts }
    requires some { 0 < blank.parts }
{
    let mut store = FileStore::<L>::new(rt, blank);
    if let Some(folder) = launch.files {
        if store.confine(folder).is_err() {
            return Err(Cause::NoFolder);
        }
    }
    if launch.is_saveless {
        store.save_nothing();
    }
    let mut script = ToldReader::new(ScriptReader::open(rt, launch)?);
    let mut output = ToldWriter::new(io::writer(rt));
    play_script(rt.alloc(), panel, &mut store, &mut script, &mut output)
}
