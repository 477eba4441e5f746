// What the lines of a script are read from.
use crate::ending::Cause;
use crate::settings::Launch;
use p11_panel::SessionFault;
use std::fs::File;
use std::io;
use std::io::{Read, Stdin};

/// The script, open to be read.
#[derive(Drop)]
pub(crate) enum ScriptReader {
    /// Standard input, as the program was given it.
    Input(Stdin),
    /// The file of the script's name.
    File(File),
}

impl ScriptReader {
    /// Opens the script that the command line names.
    pub(crate) fn open(rt: &HostRuntime, launch: &Launch<'_>) -> Result<Self, Cause> {
        if launch.is_from_standard_input() {
            return Ok(ScriptReader::Input(rt.stdin()));
        }
        match File::open(rt, launch.script) {
            Ok(file) => Ok(ScriptReader::File(file)),
            Err(_) => Err(Cause::Session(SessionFault::Reading)),
        }
    }
}

impl Read for ScriptReader {
    fn read(&mut self, buf: &mut [u8]) -> io::Result<usize> {
        match self {
            ScriptReader::Input(input) => input.read(buf),
            ScriptReader::File(file) => file.read(buf),
        }
    }
}
