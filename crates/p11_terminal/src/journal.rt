// The record's file, which is a new one.
use crate::ending::Cause;
use crate::notice::notice;
use crate::remark::remark;
use crate::settings::Launch;
use std::fs::{File, OpenOptions};
use std::io::{ErrorKind, Write};

/// The most names that are tried.
const MOST_NAMES: u32 = 10_000;

/// The record's file and its name, where one is written.
#[derive(Drop)]
pub(crate) struct Journal {
    file: Option<(File, String)>,
    is_torn: bool,
}

impl Journal {
    /// Makes the file, and writes its first line.
    pub(crate) fn open(rt: &HostRuntime, launch: &Launch<'_>) -> Result<Self, Cause> {
        let mut journal = Journal {
            file: None,
            is_torn: false,
        };
        if let Some(name) = launch.record {
            journal.file = Some(new_file(rt, name)?);
            journal.write(rt, remark(rt, launch)?.as_slice());
        }
        Ok(journal)
    }

    /// Whether the record lacks something.
    pub(crate) fn is_torn(&self) -> bool {
        self.is_torn
    }

    /// Writes these bytes. Where that fails it is said, and nothing more is written.
    pub(crate) fn write(&mut self, rt: &HostRuntime, bytes: &[u8]) {
        let Some((file, name)) = &mut self.file else {
            return;
        };
        if file.write_all(bytes).is_err() {
            if let Ok(text) = format!(in rt.alloc(); "the record can't be written: {name}") {
                notice(rt, text.as_str());
            }
            self.file = None;
            self.is_torn = true;
        }
    }
}

/// Makes a file of this name, or of the name with the first number behind it under which none is there, which is said.
fn new_file(rt: &HostRuntime, name: &str) -> Result<(File, String), Cause> {
    let mut path = String::from_str(rt.alloc(), name)?;
    for number in 1..MOST_NAMES {
        match OpenOptions::new()
            .write(true)
            .create_new(true)
            .open(rt, path.as_str())
        {
            Ok(file) => {
                if number > 1 {
                    let text = format!(in rt.alloc();
                        "{name} is there: the record goes to {path}"
                    )?;
                    notice(rt, text.as_str());
                }
                return Ok((file, path));
            }
            Err(error) if error.kind() == ErrorKind::AlreadyExists => {
                path = format!(in rt.alloc(); "{name}.{number}")?;
            }
            Err(_) => return Err(Cause::NoRecord),
        }
    }
    Err(Cause::NoRecord)
}
